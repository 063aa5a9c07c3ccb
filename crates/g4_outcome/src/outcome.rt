// What becomes of a file.
ghost use Rattle.std.specs.Prelude.{◌≡◌, ◌≤◌, IfOk, length};
ghost use Rattle.g4_lexer.specs.Lexers.{matched_by};
ghost use Rattle.g4_load.specs.Usable.{IsUsable};
ghost use Rattle.g4_outcome.specs.Grammars.{with_net};
ghost use Rattle.g4_outcome.specs.Inputs.{IsSmall};
ghost use Rattle.g4_outcome.specs.Meaning.{IsMeantAnywhere};
ghost use Rattle.g4_outcome.specs.Outcomes.{IsNested, IsOutcome, is_accepted, lexing_refused, parsing_refused};
ghost use Rattle.g4_outcome.specs.Taught.{HasTaught};

use crate::grammar::Grammar;
use crate::input::Input;
use crate::predicates::FilePredicates;
use g4_base::{MOST_BYTES, Octets};
use g4_full::Memory;
use g4_learned::{DecisionNet, Pass, Store};
use g4_lexer::{LexFault, Matcher, tokens};
use g4_parse::{ParseFault, parse};
use g4_store::steps::Steps;
use g4_store::view::Home;
use g4_tokens::Tokens;
use g4_trees::Tree;
use std::alloc::{AllocError, Global};
use std::sync::Wait;
use std::sync::ledger::Ledger;

/// What becomes of a file.
#[derive(Drop)]
pub enum Outcome {
    /// The file is accepted: its tokens, and their tree.
    Tree(Tokens, Tree),
    /// The fault of its characters.
    Lex(LexFault),
    /// Its tokens, and their fault.
    Parse(Tokens, ParseFault),
    /// It has this many bytes, which is past the limit.
    TooLarge(u64),
}

/// Whether the file is accepted.
pub fn is_accepted(outcome: &Outcome) -> bool
    ensures { result ≡ is_accepted outcome.now }
{
    matches!(outcome, Outcome::Tree(_, _))
}

fn lexing_refused(fault: &LexFault) -> bool
    ensures { result ≡ lexing_refused fault.now }
{
    matches!(fault, LexFault::NoMemory)
}

fn parsing_refused(fault: &ParseFault) -> bool
    ensures { result ≡ parsing_refused fault.now }
{
    matches!(fault, ParseFault::NoMemory)
}

/// The outcome of a file of these bytes.
fn outcome_of_bytes<B: Home<DecisionNet>, R: Wait, L: Ledger>(
    rt: &R,
    alloc: Global,
    grammar: &Grammar,
    store: &Store<B>,
    pass: &mut Pass<B>,
    memory: &mut Memory<B>,
    matcher: &mut Matcher<'_>,
    bytes: Octets,
    steps: &mut Steps<L>,
) -> Result<Outcome, AllocError>
    requires own { matcher.old ≡ matched_by grammar.now.lexer }
    requires usable { IsUsable (with_net grammar.now B.plan.net.net) }
    requires small { length bytes ≤ MOST_BYTES }
    ensures own { matcher.new ≡ matched_by grammar.now.lexer }
    ensures outcome { IfOk result (IsOutcome (with_net grammar.now B.plan.net.net) (Input.Bytes bytes)) }
    ensures nested { IfOk result IsNested }
    ensures meant { IfOk result (IsMeantAnywhere (with_net grammar.now B.plan.net.net)) }
    ensures taught { IfOk result (λ _. HasTaught B.plan (with_net grammar.now B.plan.net.net) (Input.Bytes bytes) pass.old pass.new) }
{
    let tokens = match tokens(alloc, &grammar.lexer, matcher, bytes) {
        Ok(tokens) => tokens,
        Err(fault) => {
            if lexing_refused(&fault) {
                return Err(AllocError);
            }
            return Ok(Outcome::Lex(fault));
        }
    };
    let predicates = FilePredicates {
        grammar,
        tokens: &tokens,
    };
    match parse(
        rt,
        alloc,
        store,
        pass,
        memory,
        &predicates,
        tokens.list.as_slice(),
        steps,
    ) {
        Ok(tree) => Ok(Outcome::Tree(tokens, tree)),
        Err(fault) => {
            if parsing_refused(&fault) {
                return Err(AllocError);
            }
            Ok(Outcome::Parse(tokens, fault))
        }
    }
}

/// The outcome of a file.
pub fn outcome_of<B: Home<DecisionNet>, R: Wait, L: Ledger>(
    rt: &R,
    alloc: Global,
    grammar: &Grammar,
    store: &Store<B>,
    pass: &mut Pass<B>,
    memory: &mut Memory<B>,
    matcher: &mut Matcher<'_>,
    input: Input,
    steps: &mut Steps<L>,
) -> Result<Outcome, AllocError>
    requires own { matcher.old ≡ matched_by grammar.now.lexer }
    requires usable { IsUsable (with_net grammar.now B.plan.net.net) }
    requires small { IsSmall input }
    ensures own { matcher.new ≡ matched_by grammar.now.lexer }
    ensures outcome { IfOk result (IsOutcome (with_net grammar.now B.plan.net.net) input) }
    ensures nested { IfOk result IsNested }
    ensures meant { IfOk result (IsMeantAnywhere (with_net grammar.now B.plan.net.net)) }
    ensures taught { IfOk result (λ _. HasTaught B.plan (with_net grammar.now B.plan.net.net) input pass.old pass.new) }
{
    match input {
        Input::Bytes(bytes) => outcome_of_bytes(
            rt, alloc, grammar, store, pass, memory, matcher, bytes, steps,
        ),
        Input::TooLarge(size) => Ok(Outcome::TooLarge(size)),
    }
}
