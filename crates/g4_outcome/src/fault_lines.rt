// The lines of faults of a file.
ghost use Rattle.std.specs.Prelude.{◌≡◌, ◌++◌, IfOk, OnOk, string_bytes, ◌-◌};
ghost use Rattle.g4_net.specs.Network.{state_at};
ghost use Rattle.g4_outcome.specs.Texts.{at_place, taken_by, place_of_token, mismatch_line, no_viable_line, failed_predicate_line, too_deep_line, character_text, no_token_line, empty_mode_stack_line, many_tokens_line, not_utf8_line, large_line};
ghost use Rattle.g4_outcome.specs.declared.line.Line.TheVariants.{ToErr};

use crate::line::Line;
use g4_base::{Place, Sequence, Text, push_shown};
use g4_net::{ParserNetwork, State};
use g4_netlist::{push_name, push_set};
use g4_tokens::{Token, Tokens};
use g4_trees::push_token;
use std::alloc::{AllocError, Global};

/// The line of a text on err.
pub fn to_err(line: String) -> Line
    ensures { result ≡ ToErr (string_bytes line) }
{
    Line::ToErr(Sequence::new(line.into_bytes()))
}

/// Adds a text.
pub fn push(line: &mut Vec<u8>, text: &str) -> Result<(), AllocError>
    ensures { OnOk result (line.new.items ≡ line.old.items ++ text.now) }
{
    line.extend_from_slice(text.as_bytes())
}

/// `NAME: line L:C `
pub fn start_line(alloc: Global, name: &str, place: Place) -> Result<String, AllocError>
    ensures { IfOk result (λ s. string_bytes s ≡ at_place name.now place) }
{
    let line = place.line;
    let column = place.column;
    let start = format!(in alloc; "{name}: line {line}:{column} ")?;
    Ok(start)
}

fn set_at(alloc: Global, net: &ParserNetwork, state: u32) -> Result<Vec<u32>, AllocError>
    ensures { IfOk result (λ set. set.items ≡ taken_by (state_at net.now state)) }
{
    match net.states.as_slice().get(state as usize) {
        Some(State::Edge(set, _)) => set.to_vec(alloc),
        _ => Ok(Vec::new(alloc)),
    }
}

fn place_at(tokens: &[Token], at: u32) -> Place
    ensures { result ≡ place_of_token tokens.now at }
{
    match tokens.get(at as usize) {
        Some(token) => token.place,
        None => Place::START,
    }
}

/// A token that a state does not take, where these are shown of the token types.
pub fn mismatch(
    alloc: Global,
    types: &[Text],
    net: &ParserNetwork,
    name: &str,
    tokens: &Tokens,
    at: u32,
    state: u32,
) -> Result<Line, AllocError>
    ensures { IfOk result (λ line. line ≡ mismatch_line types.now net.now name.now tokens.now at state) }
{
    let place = place_at(tokens.list.as_slice(), at);
    let set = set_at(alloc, net, state)?;
    let mut line = start_line(alloc, name, place)?.into_bytes();
    push(&mut line, "mismatched input '")?;
    push_token(&mut line, tokens, at)?;
    push(&mut line, "' expecting ")?;
    push_set(&mut line, types, set.as_slice())?;
    push(&mut line, "\n")?;
    Ok(Line::ToErr(Sequence::new(line)))
}

/// A token with which no alternative of a decision continues.
pub fn no_viable(alloc: Global, name: &str, tokens: &Tokens, at: u32) -> Result<Line, AllocError>
    ensures { IfOk result (λ line. line ≡ no_viable_line name.now tokens.now at) }
{
    let place = place_at(tokens.list.as_slice(), at);
    let mut line = start_line(alloc, name, place)?.into_bytes();
    push(&mut line, "no viable alternative at input '")?;
    push_token(&mut line, tokens, at)?;
    push(&mut line, "'\n")?;
    Ok(Line::ToErr(Sequence::new(line)))
}

/// A predicate that is false in the open rule of this number, where the rules have these names.
pub fn failed_predicate(
    alloc: Global,
    names: &[Text],
    name: &str,
    tokens: &Tokens,
    at: u32,
    rule: u32,
) -> Result<Line, AllocError>
    ensures { IfOk result (λ line. line ≡ failed_predicate_line names.now name.now tokens.now at rule) }
{
    let place = place_at(tokens.list.as_slice(), at);
    let mut line = start_line(alloc, name, place)?.into_bytes();
    push(&mut line, "rule ")?;
    push_name(&mut line, names, rule)?;
    push(&mut line, " failed predicate\n")?;
    Ok(Line::ToErr(Sequence::new(line)))
}

/// A call with too many rules open.
pub fn too_deep(alloc: Global, name: &str, tokens: &Tokens, at: u32) -> Result<Line, AllocError>
    ensures { IfOk result (λ line. line ≡ too_deep_line name.now tokens.now at) }
{
    let place = place_at(tokens.list.as_slice(), at);
    let mut line = start_line(alloc, name, place)?;
    line.push_str("more than 10000 open rules\n")?;
    Ok(to_err(line))
}

/// Adds the character, or at the end of the file that this is reached.
fn push_character(line: &mut String, character: Option<char>) -> Result<(), AllocError>
    ensures { OnOk result (string_bytes line.new ≡ string_bytes line.old ++ character_text character) }
{
    match character {
        Some(character) => push_shown(line, &[character]),
        None => line.push_str("<EOF>"),
    }
}

/// A character at which no token begins, or the end of the file in a token that has begun.
pub fn no_token(
    alloc: Global,
    name: &str,
    place: Place,
    character: Option<char>,
) -> Result<Line, AllocError>
    ensures { IfOk result (λ line. line ≡ no_token_line name.now place character) }
{
    let mut line = start_line(alloc, name, place)?;
    line.push_str("token recognition error at: '")?;
    push_character(&mut line, character)?;
    line.push_str("'\n")?;
    Ok(to_err(line))
}

/// A match whose command goes back to a mode, where none is pushed.
pub fn empty_mode_stack(alloc: Global, name: &str, place: Place) -> Result<Line, AllocError>
    ensures { IfOk result (λ line. line ≡ empty_mode_stack_line name.now place) }
{
    let mut line = start_line(alloc, name, place)?;
    line.push_str("mode stack is empty\n")?;
    Ok(to_err(line))
}

/// A file with too many tokens, and where the first past the limit begins.
pub fn many_tokens(alloc: Global, name: &str, place: Place) -> Result<Line, AllocError>
    ensures { IfOk result (λ line. line ≡ many_tokens_line name.now place) }
{
    let mut line = start_line(alloc, name, place)?;
    line.push_str("more than 1000000 tokens\n")?;
    Ok(to_err(line))
}

/// Bytes that are no UTF-8 text.
pub fn not_utf8(alloc: Global, name: &str, at: usize) -> Result<Line, AllocError>
    ensures { IfOk result (λ line. line ≡ not_utf8_line name.now at) }
{
    let line = format!(in alloc; "{name}: byte {at}: not UTF-8\n")?;
    Ok(to_err(line))
}

/// A file past the limit.
pub fn large(alloc: Global, name: &str, size: u64) -> Result<Line, AllocError>
    ensures { IfOk result (λ line. line ≡ large_line name.now size) }
{
    let line = format!(in alloc; "{name}: file of {size} bytes\n")?;
    Ok(to_err(line))
}
