// The paths of SLL: which sets of configurations it goes through on the tokens of a text.
ghost use Rattle.std.specs.Prelude.{◌<◌, ◌^◌, IfOk, length};
ghost use Rattle.g4_lexer.specs.Lexers.{HasTokenTypes};
ghost use Rattle.g4_load.specs.Usable.{IsUsable};
ghost use Rattle.g4_ordered.specs.Network.{IsLexable};
ghost use Rattle.g4_tokens.specs.TokenList.{EndsInEnd, word_of};

use g4_base::{Sequence, Text};
use g4_lexer::{Lexer, tokens};
use g4_load::{Interpreter, build_interpreter};
use g4_net::Allowed;
use g4_ports::{MemFile, MemShelf};
use g4_predict::{Led, Looked, Path, Verdict, simulate};
use g4_tokens::Tokens;
use std::alloc::{AllocError, Global};
use std::fmt::Write;
use std::test::Fail;

/// The grammar as the file X.g4.
fn shelf_of(alloc: Global, grammar: &str) -> Result<MemShelf, AllocError> {
    let file = MemFile {
        name: Text::copy_of(alloc, "X.g4")?,
        bytes: Sequence::new(grammar.as_bytes().to_vec(alloc)?),
    };
    Ok(MemShelf::new(vec![in alloc; file]?, Vec::new(alloc)))
}

/// What parses with this grammar from the rule `s`.
fn interpreter(alloc: Global, grammar: &str) -> Result<Interpreter, Fail>
    ensures { IfOk result IsUsable }
{
    let mut shelf = shelf_of(alloc, grammar)?;
    match build_interpreter(alloc, &mut shelf, None, "X.g4", "s") {
        Ok(interpreter) => Ok(interpreter),
        Err(_) => Err(Fail::from("no interpreter")),
    }
}

/// The tokens of a text.
fn tokens_of(alloc: Global, lexer: &Lexer, text: &str) -> Result<Tokens, Fail>
    requires lexable { IsLexable lexer.now.net }
    requires types { HasTokenTypes lexer.now }
    ensures ends { IfOk result (λ found. EndsInEnd (word_of found.list)) }
    ensures few { IfOk result (λ found. length found.list < 2 ^ 32) }
{
    if text.len() > 1_000_000 {
        return Err(Fail::from("a long text"));
    }
    let bytes = Sequence::new(text.as_bytes().to_vec(alloc)?);
    let mut matcher = lexer.matcher(alloc)?;
    match tokens(alloc, lexer, &mut matcher, bytes) {
        Ok(tokens) => Ok(tokens),
        Err(_) => Err(Fail::from("no tokens")),
    }
}

/// What SLL says of the first decision of rule 1 on the tokens of a text, and its path.
fn simulated_by(
    alloc: Global,
    interpreter: &Interpreter,
    text: &str,
) -> Result<(Verdict, Path), Fail>
    requires { IsUsable interpreter.now }
{
    let tokens = tokens_of(alloc, &interpreter.lexer, text)?;
    let simulated = simulate(
        alloc,
        &interpreter.net,
        2,
        &Allowed::Every,
        tokens.list.as_slice(),
    )?;
    Ok(simulated)
}

/// The same by the network of a grammar.
fn simulated(alloc: Global, grammar: &str, text: &str) -> Result<(Verdict, Path), Fail> {
    let interpreter = interpreter(alloc, grammar)?;
    simulated_by(alloc, &interpreter, text)
}

/// Whether the symbol led to a set.
fn is_row(entry: &Looked) -> bool {
    matches!(entry.led, Led::Row(_))
}

/// Whether two symbols led to the same set.
fn are_same(one: &Looked, other: &Looked) -> bool {
    match (&one.led, &other.led) {
        (Led::Row(one), Led::Row(other)) => one.same(other),
        _ => false,
    }
}

/// The verdict, how many symbols were looked at, how many of these led to a set, and how many to the same set as the one before.
fn shown(alloc: Global, grammar: &str, text: &str) -> Result<String, Fail> {
    let (verdict, path) = simulated(alloc, grammar, text)?;
    let looked = path.looked.as_slice();
    let count = looked.len();
    let rows = looked.iter().filter(|entry| is_row(entry)).count();
    let again = looked
        .iter()
        .zip(looked.iter().skip(1))
        .filter(|(one, other)| are_same(one, other))
        .count();
    let shown = format!(in alloc; "{verdict:?} {count} {rows} {again}")?;
    Ok(shown)
}

/// Grammars and texts, and what SLL says of the first rule's decision, worked out by hand.
const TABLE: &str = "grammar X; s : 'a' 'b' 'c' | 'a' 'b' 'd' ; | abd => Answer(2) 3 2 0
grammar X; s : 'a' 'b' 'c' | 'a' 'b' 'd' ; | aba => ErrorAt(2) 3 2 0
grammar X; s : 'a' 'b' 'c' | 'a' 'b' 'd' ; |  => ErrorAt(0) 1 0 0
grammar X; r : 'a' | ; s : 'x' r 'a' 'z' | 'y' r 'z' ; | az => Sensitive(1) 2 1 0
grammar X; s : 'a'* 'b' | 'a'* 'c' ; | aaac => Answer(2) 4 3 2";

/// Adds a row of which something else is found.
fn push_other(alloc: Global, all: &mut String, row: &str) -> Result<(), Fail> {
    let (asked, wanted) = row.split_once(" => ").unwrap_or((row, ""));
    let (grammar, text) = asked.rsplit_once(" | ").unwrap_or((asked, ""));
    let found = shown(alloc, grammar, text)?;
    if found.as_str() != wanted {
        write!(all, "\n{row}\n  is {found}")?;
    }
    Ok(())
}

#[test]
fn paths(rt: HostRuntime) -> Result<(), Fail> {
    let mut wrong = String::new(rt.alloc());
    for row in TABLE.lines() {
        push_other(rt.alloc(), &mut wrong, row)?;
    }
    assert_eq!(rt; wrong.as_str(), "");
    Ok(())
}

#[test]
fn a_long_path(rt: HostRuntime) -> Result<(), Fail> {
    let mut text = "a".repeat(rt.alloc(), 2_000)?;
    text.push('c')?;
    let found = shown(
        rt.alloc(),
        "grammar X; s : 'a'* 'b' | 'a'* 'c' ;",
        text.as_str(),
    )?;
    assert_eq!(rt; found.as_str(), "Answer(2) 2001 2000 1999");
    Ok(())
}
