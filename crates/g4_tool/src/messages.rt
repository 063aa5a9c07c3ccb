// The lines of faults of words, grammars and names of files.
ghost use Rattle.std.specs.Prelude.{◌≡◌, IfOk};
ghost use Rattle.g4_tool.specs.Texts.{absent_line, usage_line, syntax_line, bad_set_line, twice_line, bad_import_line, bad_tokens_line, no_lexer_line, no_token_type_line, no_rule_line, limit_line};

use g4_base::{Place, push_shown};
use g4_outcome::{Line, start_line, to_err};
use std::alloc::{AllocError, Global};

/// A name that no file has.
pub fn absent(alloc: Global, name: &str) -> Result<Line, AllocError>
    ensures { IfOk result (λ line. line ≡ absent_line name.now) }
{
    let line = format!(in alloc; "{name}: not found\n")?;
    Ok(to_err(line))
}

/// Words that are no command.
pub fn usage(alloc: Global) -> Result<Line, AllocError>
    ensures { IfOk result (λ line. line ≡ usage_line) }
{
    let line = String::from_str(alloc, "usage: g4 parse, check, atn, match or drill\n")?;
    Ok(to_err(line))
}

/// A token with which no grammar text continues.
pub fn syntax(
    alloc: Global,
    name: &str,
    place: Place,
    characters: &[char],
) -> Result<Line, AllocError>
    ensures { IfOk result (λ line. line ≡ syntax_line name.now place characters.now) }
{
    let mut line = start_line(alloc, name, place)?;
    line.push_str("syntax error at '")?;
    push_shown(&mut line, characters)?;
    line.push_str("'\n")?;
    Ok(to_err(line))
}

/// A character set that is empty, has a range that runs backward or names an unknown property.
pub fn bad_set(alloc: Global, name: &str, place: Place) -> Result<Line, AllocError>
    ensures { IfOk result (λ line. line ≡ bad_set_line name.now place) }
{
    let mut line = start_line(alloc, name, place)?;
    line.push_str("bad character set\n")?;
    Ok(to_err(line))
}

/// A rule whose name an earlier rule has.
pub fn twice(alloc: Global, name: &str, rule: &str) -> Result<Line, AllocError>
    ensures { IfOk result (λ line. line ≡ twice_line name.now rule.now) }
{
    let line = format!(in alloc; "{name}: rule {rule} stands twice\n")?;
    Ok(to_err(line))
}

/// A grammar of a kind that cannot be imported there, by the name by which it is imported.
pub fn bad_import(alloc: Global, name: &str, imported: &str) -> Result<Line, AllocError>
    ensures { IfOk result (λ line. line ≡ bad_import_line name.now imported.now) }
{
    let line = format!(in alloc; "{name}: cannot import {imported}\n")?;
    Ok(to_err(line))
}

/// A file of tokens whose line with this number is no token line.
pub fn bad_tokens(alloc: Global, name: &str, line: u32) -> Result<Line, AllocError>
    ensures { IfOk result (λ made. made ≡ bad_tokens_line name.now line) }
{
    let made = format!(in alloc; "{name}: line {line} is no token line\n")?;
    Ok(to_err(made))
}

/// A parser grammar that names no lexer grammar.
pub fn no_lexer(alloc: Global, name: &str, grammar: &str) -> Result<Line, AllocError>
    ensures { IfOk result (λ line. line ≡ no_lexer_line name.now grammar.now) }
{
    let line = format!(in alloc; "{name}: no lexer grammar for {grammar}\n")?;
    Ok(to_err(line))
}

/// A literal, as it is written, that names no token of the lexer grammar.
pub fn no_token_type(alloc: Global, name: &str, literal: &str) -> Result<Line, AllocError>
    ensures { IfOk result (λ line. line ≡ no_token_type_line name.now literal.now) }
{
    let line = format!(in alloc; "{name}: no token for {literal}\n")?;
    Ok(to_err(line))
}

/// An undefined start rule.
pub fn no_rule(alloc: Global, name: &str, start: &str) -> Result<Line, AllocError>
    ensures { IfOk result (λ line. line ≡ no_rule_line name.now start.now) }
{
    let line = format!(in alloc; "{name}: no parser rule {start}\n")?;
    Ok(to_err(line))
}

/// A limit that the grammar passes, by its kind and number.
pub fn limit(alloc: Global, name: &str, kind: &str) -> Result<Line, AllocError>
    ensures { IfOk result (λ line. line ≡ limit_line name.now kind.now) }
{
    let line = format!(in alloc; "{name}: limit {kind}\n")?;
    Ok(to_err(line))
}
