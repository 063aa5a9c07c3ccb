// Questions of decisions: a grammar, a text, and the path of the first decision on it.
ghost use Rattle.std.specs.Prelude.{◌≡◌, ◌≤◌, ◌<◌, ◌^◌, IfOk, IsTrue, All, length};
ghost use Rattle.g4_classes.specs.Classes.{IsSymbol};
ghost use Rattle.g4_guards.specs.Levels.{IsCondition, IsDecision};
ghost use Rattle.g4_learned_tests.specs.Asked.{IsAsked};
ghost use Rattle.g4_lexer.specs.Lexers.{HasTokenTypes};
ghost use Rattle.g4_load.specs.Usable.{IsUsable};
ghost use Rattle.g4_net.specs.AddedRule.{IsReady};
ghost use Rattle.g4_net.specs.Loops.{HasLoops};
ghost use Rattle.g4_ordered.specs.Network.{IsLexable};
ghost use Rattle.g4_tokens.specs.TokenList.{EndsInEnd, word_of};

use g4_base::{Sequence, Text};
use g4_guards::{Tests, allowed_at, tests_of};
use g4_lexer::{Lexer, tokens};
use g4_load::{Interpreter, build_interpreter};
use g4_net::{ParserNetwork, State};
use g4_ports::{MemFile, MemShelf};
use g4_predict::{Path, simulate};
use g4_tokens::{END, EOF, MOST_TYPES, Token, Tokens};
use std::alloc::{AllocError, Global};
use std::test::Fail;

/// The first state of rule 1, where the rule decides.
const DECISION: u32 = 2;

/// The grammar as the file X.g4.
fn shelf_of(alloc: Global, grammar: &str) -> Result<MemShelf, AllocError> {
    let file = MemFile {
        name: Text::copy_of(alloc, "X.g4")?,
        bytes: Sequence::new(grammar.as_bytes().to_vec(alloc)?),
    };
    Ok(MemShelf::new(vec![in alloc; file]?, Vec::new(alloc)))
}

/// What parses with this grammar from the rule `s`.
pub(crate) fn interpreter(alloc: Global, grammar: &str) -> Result<Interpreter, Fail>
    ensures { IfOk result IsUsable }
{
    let mut shelf = shelf_of(alloc, grammar)?;
    match build_interpreter(alloc, &mut shelf, None, "X.g4", "s") {
        Ok(interpreter) => Ok(interpreter),
        Err(_) => Err(Fail::from("no interpreter")),
    }
}

/// The tokens of a text.
fn tokens_of(alloc: Global, lexer: &Lexer, text: &str) -> Result<Tokens, Fail>
    requires lexable { IsLexable lexer.now.net }
    requires types { HasTokenTypes lexer.now }
    ensures ends { IfOk result (λ found. EndsInEnd (word_of found.list)) }
    ensures few { IfOk result (λ found. length found.list < 2 ^ 32) }
{
    if text.len() > 1_000_000 {
        return Err(Fail::from("a long text"));
    }
    let bytes = Sequence::new(text.as_bytes().to_vec(alloc)?);
    let mut matcher = lexer.matcher(alloc)?;
    match tokens(alloc, lexer, &mut matcher, bytes) {
        Ok(tokens) => Ok(tokens),
        Err(_) => Err(Fail::from("no tokens")),
    }
}

/// Whether the number is a symbol.
fn is_symbol(symbol: u32) -> bool
    ensures { IsTrue result → IsSymbol symbol }
{
    symbol == EOF || symbol == END || (symbol > 0 && symbol <= MOST_TYPES)
}

/// Whether each token has a symbol.
fn have_symbols(tokens: &[Token]) -> bool
    ensures { IsTrue result → All IsSymbol (word_of tokens.now) }
{
    for token in tokens {
        if !is_symbol(token.symbol) {
            return false;
        }
    }
    true
}

/// Whether there are tokens, each with a symbol.
fn can_be_asked(tokens: &[Token]) -> bool
    ensures some { IsTrue result → 0 < length tokens.now }
    ensures symbols { IsTrue result → All IsSymbol (word_of tokens.now) }
{
    !tokens.is_empty() && have_symbols(tokens)
}

/// Whether the state is a decision.
fn is_decision(net: &ParserNetwork, state: u32) -> bool
    ensures { IsTrue result → IsDecision net.now state }
{
    match net.states.as_slice().get(state as usize) {
        Some(State::Decision(_)) => true,
        _ => false,
    }
}

/// Whether 0 is a condition of the state: it has no more than a few tests.
fn has_conditions(net: &ParserNetwork, state: u32) -> bool
    requires { HasLoops net.now }
    ensures { IsTrue result → IsCondition net.now state 0 }
{
    match tests_of(net, state) {
        Tests::Levels => true,
        Tests::Few => true,
        Tests::Many => false,
    }
}

/// The path of the first decision on a text under condition 0, and the text's tokens.
pub(crate) fn ask(
    alloc: Global,
    net: &ParserNetwork,
    lexer: &Lexer,
    text: &str,
) -> Result<(Path, Tokens), Fail>
    requires ready { IsReady net.now }
    requires loops { HasLoops net.now }
    requires lexable { IsLexable lexer.now.net }
    requires types { HasTokenTypes lexer.now }
    ensures { IfOk result (λ asked. IsAsked net.now asked.1.list asked.0) }
{
    if !is_decision(net, DECISION) {
        return Err(Fail::from("no decision"));
    }
    if !has_conditions(net, DECISION) {
        return Err(Fail::from("no conditions"));
    }
    let tokens = tokens_of(alloc, lexer, text)?;
    let list = tokens.list.as_slice();
    if !can_be_asked(list) {
        return Err(Fail::from("no symbols"));
    }
    let allowed = allowed_at(alloc, net, DECISION, 0)?;
    let (_, path) = simulate(alloc, net, DECISION, &allowed, list)?;
    Ok((path, tokens))
}
