// Sets of Unicode characters.
ghost use Rattle.std.specs.Prelude.{◌≡◌, ℕ, ◌≤◌, ◌<◌, ◌⊎◌, ◌↔◌, [], IsTrue, IfOk};
ghost use Rattle.std.specs.List.{All};
ghost use Rattle.g4_chars.specs.CharSets.{Has, IsScalar, IsRange, IsCanonical};

use crate::building::{canonical, gaps, push_scalars};
use crate::range::Range;
use std::alloc::{AllocError, Global};
use std::marker::Model;

/// A set of Unicode scalar values, kept as ranges that are sorted and neither touch nor overlap.
#[derive(Drop)]
pub struct CharSet {
    ranges: Vec<Range>,
}

impl Model for CharSet {
    ghost use Rattle.std.specs.Prelude.{List};
    ghost use Rattle.g4_chars.specs.declared.range.Range.{Range as Span};
    ghost use Rattle.g4_chars.specs.CharSets.{IsCanonical};

    ghost Value = { List Span };

    ghost view = { λ s. s.ranges.items };

    ghost invariant = { λ s. IsCanonical s.ranges.items };
}

impl CharSet {
    /// The set with no character.
    pub fn empty(alloc: Global) -> CharSet
        ensures { result ≡ [] }
    {
        CharSet {
            ranges: Vec::new(alloc),
        }
    }

    /// The set of one character.
    ///
    /// # Errors
    /// No memory.
    pub fn of_character(alloc: Global, character: char) -> Result<CharSet, AllocError>
        ensures { IfOk result (λ s. (c : ℕ) → Has s c ↔ (c ≡ character)) }
    {
        let set = CharSet::of_range(alloc, character, character)?;
        Ok(set)
    }

    /// The set of the characters from the first to the last, both of them in it: empty where the range runs backward.
    ///
    /// # Errors
    /// No memory.
    pub fn of_range(alloc: Global, first: char, last: char) -> Result<CharSet, AllocError>
        ensures { IfOk result (λ s. (c : ℕ) → Has s c ↔ ((first ≤ c) × (c ≤ last) × IsScalar c)) }
    {
        let mut ranges = Vec::new(alloc);
        push_scalars(&mut ranges, first as u32, last as u32 + 1)?;
        let set = CharSet::of_ranges(alloc, ranges)?;
        Ok(set)
    }

    /// The set of the characters of these ranges, which come in any order, and may touch and overlap.
    pub(crate) fn of_ranges(alloc: Global, ranges: Vec<Range>) -> Result<CharSet, AllocError>
        requires { All IsRange ranges.items }
        ensures members { IfOk result (λ s. (c : ℕ) → Has s c ↔ Has ranges.items c) }
        ensures canonical { IfOk result (λ s. IsCanonical s) }
    {
        let ranges = canonical(alloc, ranges)?;
        Ok(CharSet { ranges })
    }

    /// The ranges of the set, which are sorted and neither touch nor overlap.
    pub fn ranges(&self) -> &[Range]
        ensures value { result.now ≡ self.now }
        ensures canonical { IsCanonical result.now }
    {
        &self.ranges
    }

    /// The same set.
    ///
    /// # Errors
    /// No memory.
    pub fn copy_of(&self, alloc: Global) -> Result<CharSet, AllocError>
        ensures { IfOk result (λ copy. copy ≡ self.now) }
    {
        let ranges = self.ranges.as_slice().to_vec(alloc)?;
        Ok(CharSet { ranges })
    }

    /// Whether no character is in the set.
    pub fn is_empty(&self) -> bool
        ensures { IsTrue result ↔ ((c : ℕ) → Has self.now c → ⊥) }
    {
        self.ranges().is_empty()
    }

    /// Whether the character is in the set.
    pub fn contains(&self, c: char) -> bool
        ensures { IsTrue result ↔ Has self.now c }
    {
        let at = self.ranges.partition_point(|range| range.last < c);
        match self.ranges.get(at) {
            Some(range) => range.first <= c,
            None => false,
        }
    }

    /// The set of the characters of both sets.
    ///
    /// # Errors
    /// No memory.
    pub fn union(&self, alloc: Global, other: &CharSet) -> Result<CharSet, AllocError>
        ensures { IfOk result (λ s. (c : ℕ) → Has s c ↔ (Has self.now c ⊎ Has other.now c)) }
    {
        let mut ranges = Vec::from_slice(alloc, self.ranges())?;
        ranges.extend_from_slice(other.ranges())?;
        let set = CharSet::of_ranges(alloc, ranges)?;
        Ok(set)
    }

    /// The set of the characters that this one does not have; no surrogate is one.
    ///
    /// # Errors
    /// No memory.
    pub fn negate(&self, alloc: Global) -> Result<CharSet, AllocError>
        ensures { IfOk result (λ s. (c : ℕ) → Has s c ↔ (IsScalar c × (Has self.now c → ⊥))) }
    {
        let ranges = gaps(alloc, self.ranges())?;
        let set = CharSet::of_ranges(alloc, ranges)?;
        Ok(set)
    }
}
