// A parser's decisions, walked before and after their paths are learned.
ghost use Rattle.std.specs.Prelude.{◌≡◌, ◌≤◌, ◌<◌};
ghost use Rattle.g4_learned.specs.Stored.{IsPlan};
ghost use Rattle.g4_learned_tests.specs.Asked.{IsAsked};

use crate::asking::{ask, interpreter};
use g4_learned::{DecisionNet, Opened, Store, Walk, open};
use g4_predict::Path;
use g4_store::book::Learned;
use g4_store::steps::Steps;
use g4_store::view::Home;
use g4_tokens::Token;
use std::alloc::{AllocError, Global};
use std::fmt::Write;
use std::marker::Brand;
use std::sync::Wait;
use std::sync::ledger::{Blank, Ledger};
use std::test::Fail;

/// What a walk answered before the path was learned, what came of that, what a walk answered then, whether the pass was full, and how
/// many rows there are in the end.
#[derive(Clone, Copy, Debug, PartialEq, Eq)]
struct Seen {
    before: Walk,
    learned: Learned,
    after: Walk,
    full: bool,
    rows: usize,
}

/// Walks at a decision, learns its path, and walks again.
fn see<B: Home<DecisionNet>, R: Wait, L: Ledger>(
    rt: &R,
    alloc: Global,
    opened: Opened,
    path: Path,
    tokens: &[Token],
    blank: Blank,
) -> Result<Seen, Fail>
    requires ledger { (blank.name ≡ L.name) × (blank.parts ≡ L.parts) × (0 < blank.parts) }
    requires plan { IsPlan opened.plan }
    requires names { (opened.table.shared.table_id ≡ B.table) × (opened.plan ≡ B.plan) }
    requires asked { IsAsked B.plan.net.net tokens.now path }
{
    let mut steps = Steps::<L>::open(blank);
    let decision = path.decision;
    let (store, mut pass) = Store::<B>::named(opened);
    let before = store.walk(&mut pass, decision, 0, tokens, 0, &mut steps);
    let learned = store.learn(rt, alloc, &mut pass, 0, path)?;
    let after = store.walk(&mut pass, decision, 0, tokens, 0, &mut steps);
    let full = pass.was_full();
    let Ok(listing) = store.close(alloc, pass) else {
        return Err(Fail::from("no memory"));
    };
    Ok(Seen {
        before,
        learned,
        after,
        full,
        rows: listing.rows.len(),
    })
}

/// The same of the first decision of a grammar on a text, with room for so many rows.
fn see_first<R: Wait>(
    rt: &R,
    alloc: Global,
    grammar: &str,
    text: &str,
    rows: usize,
) -> Result<Seen, Fail>
    requires { (0 < rows) × (rows ≤ 65536) }
{
    let interpreter = interpreter(alloc, grammar)?;
    let net = interpreter.net;
    let (path, tokens) = ask(alloc, &net, &interpreter.lexer, text)?;
    let Ok(opened) = open(alloc, net, rows) else {
        return Err(Fail::from("no store"));
    };
    see::<Brand, R, Brand>(
        rt,
        alloc,
        opened,
        path,
        tokens.list.as_slice(),
        Blank::new(1),
    )
}

/// Grammars, texts and numbers of rows, and what is seen, worked out by hand.
const TABLE: &str =
    "grammar X; s : 'a' 'b' 'c' | 'a' 'b' 'd' ; | abd | 9 => NoStart All Ended(Answer(2), 2) false 3
grammar X; s : 'a' 'b' 'c' | 'a' 'b' 'd' ; | aba | 9 => NoStart All Ended(ErrorAt(2), 2) false 3
grammar X; s : 'a' 'b' 'c' | 'a' 'b' 'd' ; | abd | 3 => NoStart All Ended(Answer(2), 2) false 3
grammar X; s : 'a' 'b' 'c' | 'a' 'b' 'd' ; | abd | 2 => NoStart Full NoEdge { row: 1, at: 1 } true 2
grammar X; s : 'a' 'b' 'c' | 'a' 'b' 'd' ; |  | 9 => NoStart All Ended(ErrorAt(0), 0) false 1
grammar X; r : 'a' | ; s : 'x' r 'a' 'z' | 'y' r 'z' ; | az | 9 => NoStart All Ended(Sensitive(1), 1) false 2
grammar X; s : 'a'* 'b' | 'a'* 'c' ; | aaac | 9 => NoStart All Ended(Answer(2), 3) false 1";

/// Adds a row of which something else is seen.
fn push_other<R: Wait>(rt: &R, alloc: Global, all: &mut String, row: &str) -> Result<(), Fail> {
    let (asked, wanted) = row.split_once(" => ").unwrap_or((row, ""));
    let (front, number) = asked.rsplit_once(" | ").unwrap_or((asked, ""));
    let (grammar, text) = front.rsplit_once(" | ").unwrap_or((front, ""));
    let rows = number.parse::<usize>().unwrap_or(1);
    if rows == 0 || rows > 65_536 {
        return Err(Fail::from("a number of rows"));
    }
    let found = see_first(rt, alloc, grammar, text, rows)?;
    let shown = format!(in alloc;
        "{:?} {:?} {:?} {:?} {}",
        found.before, found.learned, found.after, found.full, found.rows
    )?;
    if shown.as_str() != wanted {
        write!(all, "\n{row}\n  is {shown}")?;
    }
    Ok(())
}

#[test]
fn decisions(rt: HostRuntime) -> Result<(), Fail> {
    let mut wrong = String::new(rt.alloc());
    for row in TABLE.lines() {
        push_other(&rt, rt.alloc(), &mut wrong, row)?;
    }
    assert_eq!(rt; wrong.as_str(), "");
    Ok(())
}
