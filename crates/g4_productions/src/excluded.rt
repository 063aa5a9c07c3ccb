// What is excluded by `~` in lexer rules.
ghost use Rattle.std.specs.Prelude.{◌≡◌, ◌++◌, ◌↔◌, ℕ, IfOk, OnOk, map};
ghost use Rattle.g4_chars.specs.CharSets.{Has};
ghost use Rattle.g4_chars.specs.SetText.{HoldsIn};
ghost use Rattle.g4_cursor.specs.Progress.{Moves, Gives};
ghost use Rattle.g4_productions.specs.LexerElements.{character_ranges, excluded_ranges, excluded_set, bracket_ranges};
ghost use Rattle.g4_productions.specs.Members.{part_of, set_of_ranges};

use crate::set::{character, excluded_character, set};
use g4_chars::{CharSet, Range};
use g4_cursor::Cursor;
use g4_grammar_tokens::Kind;
use std::alloc::{AllocError, Global};

/// Adds the range of a literal, or from one to another.
fn add_characters(cursor: &mut Cursor<'_>, ranges: &mut Vec<Range>) -> Result<(), AllocError>
    ensures { OnOk result (Moves (λ tree. ranges.new.items ≡ ranges.old.items ++ character_ranges tree) cursor.old cursor.new) }
{
    let first = excluded_character(cursor)?;
    if !cursor.is_at(Kind::DoubleDot) {
        ranges.push(Range { first, last: first })?;
        return Ok(());
    }
    cursor.take(Kind::DoubleDot);
    let last = character(cursor)?;
    ranges.push(Range { first, last })?;
    Ok(())
}

/// Adds the ranges of sets in brackets with bars between.
#[cycle(brackets)]
fn add_brackets(cursor: &mut Cursor<'_>, ranges: &mut Vec<Range>) -> Result<(), AllocError>
    ensures { OnOk result (Moves (λ tree. ranges.new.items ≡ ranges.old.items ++ bracket_ranges tree) cursor.old cursor.new) }
{
    if !cursor.open() {
        return Ok(());
    }
    add_excluded(cursor, ranges)?;
    while cursor.is_at(Kind::Bar) {
        cursor.take(Kind::Bar);
        add_excluded(cursor, ranges)?;
    }
    cursor.take(Kind::RightParenthesis);
    Ok(())
}

/// Adds the ranges under `~`.
#[cycle(brackets)]
fn add_excluded(cursor: &mut Cursor<'_>, ranges: &mut Vec<Range>) -> Result<(), AllocError>
    ensures { OnOk result (Moves (λ tree. ranges.new.items ≡ ranges.old.items ++ excluded_ranges tree) cursor.old cursor.new) }
{
    if cursor.is_at(Kind::Literal) {
        add_characters(cursor, ranges)?;
        return Ok(());
    }
    if cursor.is_at(Kind::Set) {
        let set = set(cursor)?;
        ranges.extend_from_slice(set.ranges())?;
        return Ok(());
    }
    add_brackets(cursor, ranges)?;
    Ok(())
}

/// The set of the characters in the ranges. It is joined from sets of halves of them, so that many ranges take little time.
fn joined(alloc: Global, ranges: &[Range]) -> Result<CharSet, AllocError>
    ensures { IfOk result (λ s. (c : ℕ) → Has s c ↔ HoldsIn (map part_of ranges.now) c) }
{
    match ranges {
        [] => Ok(CharSet::empty(alloc)),
        [range] => CharSet::of_range(alloc, range.first, range.last),
        _ => {
            let (front, after) = ranges.split_at(ranges.len() / 2);
            let front = joined(alloc, front)?;
            let after = joined(alloc, after)?;
            let set = front.union(alloc, &after)?;
            Ok(set)
        }
    }
}

/// The set of the characters in the ranges.
fn set_of_ranges(alloc: Global, ranges: &[Range]) -> Result<CharSet, AllocError>
    ensures { IfOk result (λ s. s ≡ set_of_ranges ranges.now) }
{
    let set = joined(alloc, ranges)?;
    // The ranges of a set are canonical: no other set has its characters.
    let _canonical = set.ranges();
    Ok(set)
}

/// The set of the characters under `~`.
pub(crate) fn excluded_set(cursor: &mut Cursor<'_>) -> Result<CharSet, AllocError>
    ensures { Gives excluded_set cursor.old cursor.new result }
{
    let mut ranges = Vec::new(cursor.alloc());
    add_excluded(cursor, &mut ranges)?;
    let set = set_of_ranges(cursor.alloc(), &ranges)?;
    Ok(set)
}
