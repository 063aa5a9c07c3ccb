// The lines that are written of what becomes of a file.
ghost use Rattle.std.specs.Prelude.{◌≡◌, ◌++◌, IfOk, OnOk};
ghost use Rattle.g4_net.specs.Network.{ParserNetwork as Net};
ghost use Rattle.g4_outcome.specs.Grammars.{with_net};
ghost use Rattle.g4_outcome.specs.Outcomes.{HasTree, IsNested, accepted_line, lex_lines, outcome_lines, parse_lines};
ghost use Rattle.g4_outcome.specs.Texts.{line_of_events, line_of_tokens, line_of_tree};
ghost use Rattle.g4_trees.specs.Events.{tree_events};
ghost use Rattle.g4_trees.specs.TreeText.{tree_text};

use crate::fault_lines::{
    empty_mode_stack, failed_predicate, large, many_tokens, mismatch, no_token, no_viable,
    not_utf8, too_deep,
};
use crate::grammar::Grammar;
use crate::line::Line;
use crate::outcome::Outcome;
use g4_base::Sequence;
use g4_lexer::LexFault;
use g4_net::ParserNetwork;
use g4_parse::ParseFault;
use g4_tokens::Tokens;
use g4_trees::{Tree, push_token_lines};
use g4_words::Output;
use std::alloc::{AllocError, Global};

/// The line of a tree.
fn text_line(
    alloc: Global,
    grammar: &Grammar,
    name: &str,
    tokens: &Tokens,
    tree: &Tree,
) -> Result<Line, AllocError>
    requires { HasTree tree.now }
    ensures { IfOk result (λ line. line ≡ line_of_tree name.now (tree_text grammar.now.rules tokens.now tree.now)) }
{
    let mut line = Vec::new(alloc);
    line.extend_from_slice(name.as_bytes())?;
    line.extend_from_slice(b": ")?;
    tree.print(&mut line, grammar.rules.as_slice(), tokens)?;
    line.extend_from_slice(b"\n")?;
    Ok(Line::ToOut(Sequence::new(line)))
}

/// The lines of the events of a tree, as one.
fn events_line(
    alloc: Global,
    grammar: &Grammar,
    name: &str,
    tokens: &Tokens,
    tree: &Tree,
) -> Result<Line, AllocError>
    requires { HasTree tree.now }
    ensures { IfOk result (λ line. line ≡ line_of_events grammar.now.rules tokens.now name.now (tree_events tree.now)) }
{
    let mut lines = Vec::new(alloc);
    let rules = grammar.rules.as_slice();
    tree.print_events(alloc, &mut lines, name, rules, tokens)?;
    Ok(Line::ToOut(Sequence::new(lines)))
}

/// The lines of the tokens of a file, as one.
fn tokens_line(
    alloc: Global,
    grammar: &Grammar,
    name: &str,
    tokens: &Tokens,
) -> Result<Line, AllocError>
    ensures { IfOk result (λ line. line ≡ line_of_tokens grammar.now.shown name.now tokens.now) }
{
    let mut lines = Vec::new(alloc);
    push_token_lines(&mut lines, name, grammar.shown.as_slice(), tokens)?;
    Ok(Line::ToOut(Sequence::new(lines)))
}

/// What is written of an accepted file.
fn accepted_line(
    alloc: Global,
    output: Output,
    grammar: &Grammar,
    name: &str,
    tokens: &Tokens,
    tree: &Tree,
) -> Result<Line, AllocError>
    requires { HasTree tree.now }
    ensures { IfOk result (λ line. (net : Net) → line ≡ accepted_line output (with_net grammar.now net) name.now tokens.now tree.now) }
{
    match output {
        Output::Trees => text_line(alloc, grammar, name, tokens, tree),
        Output::Events => events_line(alloc, grammar, name, tokens, tree),
        Output::Tokens => tokens_line(alloc, grammar, name, tokens),
    }
}

/// Adds the line of a lexer's fault.
fn push_lex(
    lines: &mut Vec<Line>,
    alloc: Global,
    name: &str,
    fault: &LexFault,
) -> Result<(), AllocError>
    ensures { OnOk result (lines.new.items ≡ lines.old.items ++ lex_lines name.now fault.now) }
{
    let line = match fault {
        LexFault::NotUtf8(at) => not_utf8(alloc, name, *at)?,
        LexFault::NoToken(place, character) => no_token(alloc, name, *place, *character)?,
        LexFault::EmptyModeStack(place) => empty_mode_stack(alloc, name, *place)?,
        LexFault::Tokens(place) => many_tokens(alloc, name, *place)?,
        LexFault::NoMemory => return Ok(()),
    };
    lines.push(line)?;
    Ok(())
}

/// Adds the line of a parser's fault.
fn push_parse(
    lines: &mut Vec<Line>,
    alloc: Global,
    grammar: &Grammar,
    net: &ParserNetwork,
    name: &str,
    tokens: &Tokens,
    fault: &ParseFault,
) -> Result<(), AllocError>
    ensures { OnOk result (lines.new.items ≡ lines.old.items ++ parse_lines (with_net grammar.now net.now) name.now tokens.now fault.now) }
{
    let types = grammar.shown.as_slice();
    let line = match fault {
        ParseFault::Mismatch { at, state } => {
            mismatch(alloc, types, net, name, tokens, *at, *state)?
        }
        ParseFault::NoViable { at } => no_viable(alloc, name, tokens, *at)?,
        ParseFault::FailedPredicate { at, rule } => {
            let names = grammar.names.as_slice();
            failed_predicate(alloc, names, name, tokens, *at, *rule)?
        }
        ParseFault::TooDeep { at } => too_deep(alloc, name, tokens, *at)?,
        ParseFault::NoMemory => return Ok(()),
    };
    lines.push(line)?;
    Ok(())
}

/// Adds the lines of the outcome of a file of this name.
pub fn push_outcome(
    lines: &mut Vec<Line>,
    alloc: Global,
    output: Output,
    grammar: &Grammar,
    net: &ParserNetwork,
    name: &str,
    outcome: &Outcome,
) -> Result<(), AllocError>
    requires { IsNested outcome.now }
    ensures { OnOk result (lines.new.items ≡ lines.old.items ++ outcome_lines output (with_net grammar.now net.now) name.now outcome.now) }
{
    match outcome {
        Outcome::Tree(tokens, tree) => {
            lines.push(accepted_line(alloc, output, grammar, name, tokens, tree)?)?
        }
        Outcome::Lex(fault) => push_lex(lines, alloc, name, fault)?,
        Outcome::Parse(tokens, fault) => {
            push_parse(lines, alloc, grammar, net, name, tokens, fault)?
        }
        Outcome::TooLarge(size) => lines.push(large(alloc, name, *size)?)?,
    }
    Ok(())
}
