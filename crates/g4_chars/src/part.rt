// The parts of a set: the ranges and properties that its items make.
ghost use Rattle.std.specs.Prelude.{◌≡◌, ◌≤◌, ◌++◌, ℕ, ◌⊎◌, ◌↔◌, length, not, true, IfOk, IfSome, OnOk, IsTrue};
ghost use Rattle.std.specs.List.{All};
ghost use Rattle.g4_chars.specs.CharSets.{Has, IsScalar, IsRange, IsCanonical};
ghost use Rattle.ucd_sets.specs.Sets.{in_set};
ghost use Rattle.ucd_table.specs.Rows.{AreRanges};
ghost use Rattle.g4_chars.specs.Building.{all_scalars};
ghost use Rattle.g4_chars.specs.Reading.{is_hyphen, character_of, range_end, span_of, more_of_span, part_of, more_of, parts};
ghost use Rattle.g4_chars.specs.SetText.{is_sound, are_sound, Holds, HoldsIn};

use crate::building::push_scalars;
use crate::char_set::CharSet;
use crate::item::Item;
use crate::range::Range;
use std::alloc::{AllocError, Global};
use unicode::sets::Set;

/// What a set is made of.
#[derive(Clone, Copy)]
pub enum Part {
    /// The characters from the first to the last.
    Span {
        first: char,
        last: char,
    },
    /// The characters with a property or without it; none is known where no property has the name.
    Class {
        complement: bool,
        property: Option<Set>,
    },
}

fn is_hyphen(item: Item) -> bool
    ensures { result ≡ is_hyphen item }
{
    match item {
        Item::Member { character, plain } => character == '-' && plain,
        Item::Named { .. } => false,
    }
}

fn character_of(item: Item) -> Option<char>
    ensures { result ≡ character_of item }
{
    match item {
        Item::Member { character, .. } => Some(character),
        Item::Named { .. } => None,
    }
}

fn range_end(rest: &[Item]) -> Option<char>
    ensures value { result ≡ range_end rest.now }
    ensures within { IfSome result (λ _. 2 ≤ length rest.now) }
{
    match rest {
        [hyphen, last, ..] if is_hyphen(*hyphen) => character_of(*last),
        _ => None,
    }
}

fn span_at(first: char, rest: &[Item]) -> (Part, usize)
    ensures part { result.0 ≡ span_of first rest.now }
    ensures more { result.1 ≡ more_of_span rest.now }
    ensures within { result.1 ≤ length rest.now }
{
    match range_end(rest) {
        Some(last) => (Part::Span { first, last }, 2),
        None => (Part::Span { first, last: first }, 0),
    }
}

/// The part that begins with the item, and how many items after it belong to it.
fn part_at(item: Item, rest: &[Item]) -> (Part, usize)
    ensures part { result.0 ≡ part_of item rest.now }
    ensures more { result.1 ≡ more_of item rest.now }
    ensures within { result.1 ≤ length rest.now }
{
    match item {
        Item::Member { character, .. } => span_at(character, rest),
        Item::Named {
            complement,
            property,
        } => (
            Part::Class {
                complement,
                property,
            },
            0,
        ),
    }
}

/// The parts that the items make, read from left to right.
pub fn parts(alloc: Global, items: &[Item]) -> Result<Vec<Part>, AllocError>
    ensures { IfOk result (λ v. v.items ≡ parts items.now) }
{
    let mut out = Vec::new(alloc);
    let mut at = 0;
    while at < items.len() {
        let first = items[at];
        let (part, more) = part_at(first, &items[at + 1..]);
        out.push(part)?;
        at += 1 + more;
    }
    Ok(out)
}

fn is_sound(part: &Part) -> bool
    ensures { result ≡ is_sound part.now }
{
    match part {
        Part::Span { first, last } => *first <= *last,
        Part::Class { property, .. } => property.is_some(),
    }
}

/// Whether no range runs backward, and each property is known.
pub fn are_sound(parts: &[Part]) -> bool
    ensures { result ≡ are_sound parts.now }
{
    parts.iter().all(|part| is_sound(part))
}

/// Adds the scalar values of ranges of code points.
fn push_all(out: &mut Vec<Range>, ranges: &[(u32, u32)]) -> Result<(), AllocError>
    requires { AreRanges ranges.now }
    ensures { OnOk result (out.new.items ≡ out.old.items ++ all_scalars ranges.now) }
{
    for (first, last) in ranges {
        push_scalars(out, *first, *last + 1)?;
    }
    Ok(())
}

/// The scalar values that have the property.
fn having(alloc: Global, property: Set) -> Result<CharSet, AllocError>
    ensures { IfOk result (λ s. (c : ℕ) → Has s c ↔ ((in_set property c ≡ true) × IsScalar c)) }
{
    let mut ranges = Vec::new(alloc);
    let found = property.ranges(alloc)?;
    push_all(&mut ranges, &found)?;
    let set = CharSet::of_ranges(alloc, ranges)?;
    Ok(set)
}

/// The scalar values that have the property, or those that don't.
fn class(alloc: Global, complement: bool, property: Set) -> Result<CharSet, AllocError>
    ensures { IfOk result (λ s. (c : ℕ) → Has s c ↔ ((in_set property c ≡ not complement) × IsScalar c)) }
{
    let set = having(alloc, property)?;
    if complement {
        let others = set.negate(alloc)?;
        Ok(others)
    } else {
        Ok(set)
    }
}

/// The characters of the part.
fn part_set(alloc: Global, part: Part) -> Result<CharSet, AllocError>
    ensures { IfOk result (λ s. (c : ℕ) → Has s c ↔ Holds part c) }
{
    match part {
        Part::Span { first, last } => {
            let set = CharSet::of_range(alloc, first, last)?;
            Ok(set)
        }
        Part::Class {
            complement,
            property: Some(property),
        } => {
            let set = class(alloc, complement, property)?;
            Ok(set)
        }
        Part::Class { property: None, .. } => Ok(CharSet::empty(alloc)),
    }
}

/// Adds the ranges of the part.
fn push_part(out: &mut Vec<Range>, alloc: Global, part: Part) -> Result<(), AllocError>
    ensures members { OnOk result ((c : ℕ) → Has out.new.items c ↔ (Has out.old.items c ⊎ Holds part c)) }
    ensures ranges { OnOk result (All IsRange out.old.items → All IsRange out.new.items) }
{
    let set = part_set(alloc, part)?;
    out.extend_from_slice(set.ranges())?;
    Ok(())
}

/// The set of the characters of the parts.
pub fn set_of(alloc: Global, parts: &[Part]) -> Result<CharSet, AllocError>
    ensures members { IfOk result (λ s. (c : ℕ) → Has s c ↔ HoldsIn parts.now c) }
    ensures canonical { IfOk result (λ s. IsCanonical s) }
{
    let mut ranges = Vec::new(alloc);
    for part in parts {
        push_part(&mut ranges, alloc, *part)?;
    }
    let set = CharSet::of_ranges(alloc, ranges)?;
    Ok(set)
}
