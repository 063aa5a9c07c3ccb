// Long paths: one for which there is room, and two that two threads learn and walk while each waits for the other.
ghost use Rattle.std.specs.Prelude.{◌≡◌, ◌≤◌, ◌<◌};
ghost use Rattle.g4_learned.specs.Stored.{IsPlan};
ghost use Rattle.g4_learned_tests.specs.Asked.{IsAsked};

use crate::asking::{ask, interpreter};
use g4_learned::{DecisionNet, Opened, Pass, Store, Walk, open};
use g4_predict::{Path, Verdict};
use g4_store::book::Learned;
use g4_store::steps::Steps;
use g4_store::view::Home;
use g4_tokens::Token;
use std::alloc::{AllocError, Global};
use std::marker::Brand;
use std::sync::Wait;
use std::sync::atomic::{AtomicBool, Ordering};
use std::sync::ledger::{Blank, Ledger};
use std::test::Fail;
use std::thread::{Threads, join};

/// How often a thread looks for the other's flag: for about a second, since on a loaded machine the other may be kept waiting.
const MOST_TURNS: u32 = 1_000_000_000;

/// Its decision looks at all brackets of `x` and at one symbol more.
const GRAMMAR: &str = "grammar X; s : e 'b' | e 'c' ; e : '(' e ')' | 'x' ;";

/// An `x` in so many brackets, and then this.
fn brackets(alloc: Global, count: usize, last: &str) -> Result<String, AllocError> {
    let mut text = String::new(alloc);
    for _ in 0..count {
        text.push_str("(")?;
    }
    text.push_str("x")?;
    for _ in 0..count {
        text.push_str(")")?;
    }
    text.push_str(last)?;
    Ok(text)
}

/// Whether a flag was set before the last turn.
fn comes(flag: &AtomicBool) -> bool {
    for _ in 0..MOST_TURNS {
        if flag.load(Ordering::SeqCst) {
            return true;
        }
    }
    false
}

/// What a thread did: whether the other's flag came, whether it walked to a verdict before it learned, whether it learned all, and what
/// it walked to then.
#[derive(Clone, Copy, Debug, PartialEq, Eq)]
struct Part {
    other_came: bool,
    knew: bool,
    learned: bool,
    walk: Walk,
}

/// Walks, learns a path and walks along it, with the other thread there.
fn take_part<B: Home<DecisionNet>, R: Wait, L: Ledger>(
    rt: &R,
    alloc: Global,
    store: &Store<B>,
    mut pass: Pass<B>,
    path: Path,
    tokens: &[Token],
    flags: (&AtomicBool, &AtomicBool),
    blank: Blank,
) -> (Pass<B>, Part)
    requires ledger { (blank.name ≡ L.name) × (blank.parts ≡ L.parts) × (0 < blank.parts) }
    requires asked { IsAsked B.plan.net.net tokens.now path }
{
    let mut steps = Steps::<L>::open(blank);
    let decision = path.decision;
    flags.0.store(true, Ordering::SeqCst);
    let other_came = comes(flags.1);
    let before = store.walk(&mut pass, decision, 0, tokens, 0, &mut steps);
    let learned = matches!(store.learn(rt, alloc, &mut pass, 0, path), Ok(Learned::All));
    let walk = store.walk(&mut pass, decision, 0, tokens, 0, &mut steps);
    let part = Part {
        other_came,
        knew: matches!(before, Walk::Ended(..)),
        learned: learned && !pass.was_full(),
        walk,
    };
    (pass, part)
}

/// What two threads did, and how many rows the store then has.
#[derive(Clone, Copy, Debug, PartialEq, Eq)]
struct Outcome {
    parts: (Part, Part),
    rows: usize,
}

/// Two threads take part, and the store is closed.
fn both<
    B: Home<DecisionNet> + Send + Sync,
    R: Threads + Wait + Sync,
    L: Ledger + Send + Sync,
    K: Ledger + Send + Sync,
>(
    rt: &R,
    alloc: Global,
    opened: Opened,
    paths: (Path, Path),
    texts: (&[Token], &[Token]),
    blank: Blank,
    second_blank: Blank,
) -> Result<Outcome, AllocError>
    requires plan { IsPlan opened.plan }
    requires names { (opened.table.shared.table_id ≡ B.table) × (opened.plan ≡ B.plan) }
    requires ledger { (blank.name ≡ L.name) × (blank.parts ≡ L.parts) × (0 < blank.parts) }
    requires second { (second_blank.name ≡ K.name) × (second_blank.parts ≡ K.parts) × (0 < second_blank.parts) }
    requires one { IsAsked B.plan.net.net texts.0.now paths.0 }
    requires two { IsAsked B.plan.net.net texts.1.now paths.1 }
{
    let (store, mut first) = Store::<B>::named(opened);
    let second = store.copy_pass(&mut first);
    let (path, other_path) = paths;
    let (text, other_text) = texts;
    let flags = (AtomicBool::new(false), AtomicBool::new(false));
    let (lent, flag, other_flag) = (&store, &flags.0, &flags.1);
    let ((mut first, part), (second, other_part)) = join(
        rt,
        move || -> (Pass<B>, Part)
            requires ledger { (blank.name ≡ L.name) × (blank.parts ≡ L.parts) × (0 < blank.parts) }
            requires asked { IsAsked B.plan.net.net text.now path }
        {
            take_part::<B, R, L>(
                rt,
                alloc,
                lent,
                first,
                path,
                text,
                (flag, other_flag),
                blank,
            )
        },
        move || -> (Pass<B>, Part)
            requires second { (second_blank.name ≡ K.name) × (second_blank.parts ≡ K.parts) × (0 < second_blank.parts) }
            requires asked { IsAsked B.plan.net.net other_text.now other_path }
        {
            take_part::<B, R, K>(
                rt,
                alloc,
                lent,
                second,
                other_path,
                other_text,
                (other_flag, flag),
                second_blank,
            )
        },
    );
    store.meet(&mut first, second);
    let Ok(listing) = store.close(alloc, first) else {
        return Err(AllocError);
    };
    Ok(Outcome {
        parts: (part, other_part),
        rows: listing.rows.len(),
    })
}

/// Two threads learn what the first decision says on these texts.
fn learn_both<R: Threads + Wait + Sync>(
    rt: &R,
    alloc: Global,
    text: &str,
    other_text: &str,
) -> Result<Outcome, Fail> {
    let interpreter = interpreter(alloc, GRAMMAR)?;
    let net = interpreter.net;
    let (path, tokens) = ask(alloc, &net, &interpreter.lexer, text)?;
    let (other_path, other_tokens) = ask(alloc, &net, &interpreter.lexer, other_text)?;
    let Ok(opened) = open(alloc, net, 65_536) else {
        return Err(Fail::from("no store"));
    };
    let outcome = both::<Brand, R, Brand, Brand>(
        rt,
        alloc,
        opened,
        (path, other_path),
        (tokens.list.as_slice(), other_tokens.list.as_slice()),
        Blank::new(1),
        Blank::new(1),
    )?;
    Ok(outcome)
}

#[test]
fn two_threads_learn_all(rt: HostRuntime) -> Result<(), Fail> {
    let alloc = rt.alloc();
    let text = brackets(alloc, 60, "b")?;
    let other_text = brackets(alloc, 100, "c")?;
    let outcome = learn_both(&rt, alloc, text.as_str(), other_text.as_str())?;
    let part = Part {
        other_came: true,
        knew: false,
        learned: true,
        walk: Walk::Ended(Verdict::Answer(1), 121),
    };
    let other_part = Part {
        walk: Walk::Ended(Verdict::Answer(2), 201),
        ..part
    };
    assert_eq!(rt; outcome.parts, (part, other_part));
    assert_eq!(rt; outcome.rows, 202);
    Ok(())
}
