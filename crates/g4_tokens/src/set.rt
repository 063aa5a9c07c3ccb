// A set of symbols, which contracts see as the list of its members, least first.
ghost use Rattle.std.specs.Prelude.{◌≡◌, ◌<◌, ◌^◌, ◌-◌, ◌↔◌, ◌++◌, [], ◌∷◌, Contains, IfOk, IsTrue, OnOk};
ghost use Rattle.std.specs.List.{range_with_len};
ghost use Rattle.g4_tokens.specs.Members.{left_over, range_members};

use std::alloc::{AllocError, Global};
use std::collections::BTreeSet;
use std::marker::Model;

/// The symbols from the first to the last, both included.
#[derive(Clone, Copy)]
struct Range {
    first: u32,
    last: u32,
}

/// A set of symbols, kept as ranges in order that neither touch nor overlap. Contracts see the list of its members, least
/// first.
#[derive(Drop)]
pub struct Symbols {
    ranges: Vec<Range>,
}

impl Model for Symbols {
    ghost use Rattle.std.specs.Prelude.{List, ℕ};
    ghost use Rattle.g4_tokens.specs.Members.{IsApart, members};

    ghost Value = { List ℕ };

    ghost view = { λ s. members s.ranges.items };

    ghost invariant = { λ s. IsApart s.ranges.items };
}

/// Adds the symbols of a range, least first.
fn push_range(all: &mut Vec<u32>, range: Range) -> Result<(), AllocError>
    ensures { OnOk result (all.new.items ≡ all.old.items ++ range_members range) }
{
    for symbol in range.first..=range.last {
        all.push(symbol)?;
    }
    Ok(())
}

impl Symbols {
    /// The set of one symbol.
    ///
    /// # Errors
    /// No memory.
    pub fn one(alloc: Global, symbol: u32) -> Result<Symbols, AllocError>
        ensures { IfOk result (λ s. s ≡ symbol ∷ []) }
    {
        let range = Range {
            first: symbol,
            last: symbol,
        };
        let ranges = vec![in alloc; range]?;
        Ok(Symbols { ranges })
    }

    /// The symbols from 1 to the greatest: not one where that is 0.
    ///
    /// # Errors
    /// No memory.
    pub fn up_to(alloc: Global, greatest: u32) -> Result<Symbols, AllocError>
        ensures { IfOk result (λ s. s ≡ range_with_len 1 greatest) }
    {
        let mut ranges = Vec::new(alloc);
        if greatest > 0 {
            ranges.push(Range {
                first: 1,
                last: greatest,
            })?;
        }
        Ok(Symbols { ranges })
    }

    /// The symbols from 1 to the greatest, but for those of a set.
    ///
    /// # Errors
    /// No memory.
    pub fn up_to_without(
        alloc: Global,
        greatest: u32,
        left_out: &BTreeSet<u32>,
    ) -> Result<Symbols, AllocError>
        requires { greatest < 2 ^ 32 - 1 }
        ensures { IfOk result (λ s. s ≡ left_over left_out.now (range_with_len 1 greatest)) }
    {
        let mut ranges = Vec::new(alloc);
        let mut first = 1;
        for symbol in 1..greatest + 1 {
            if left_out.contains(&symbol) {
                if first < symbol {
                    ranges.push(Range {
                        first,
                        last: symbol - 1,
                    })?;
                }
                first = symbol + 1;
            }
        }
        if first <= greatest {
            ranges.push(Range {
                first,
                last: greatest,
            })?;
        }
        Ok(Symbols { ranges })
    }

    /// The same set.
    ///
    /// # Errors
    /// No memory.
    pub fn copy_of(&self, alloc: Global) -> Result<Symbols, AllocError>
        ensures { IfOk result (λ s. s ≡ self.now) }
    {
        let ranges = self.ranges.as_slice().to_vec(alloc)?;
        Ok(Symbols { ranges })
    }

    /// Whether the set has the symbol: looked up among the ranges, not among the members.
    pub fn contains(&self, symbol: u32) -> bool
        ensures { IsTrue result ↔ Contains self.now symbol }
    {
        let at = self.ranges.partition_point(|range| range.last < symbol);
        match self.ranges.get(at) {
            Some(range) => range.first <= symbol,
            None => false,
        }
    }

    /// The members, least first.
    ///
    /// # Errors
    /// No memory.
    pub fn to_vec(&self, alloc: Global) -> Result<Vec<u32>, AllocError>
        ensures { IfOk result (λ all. all.items ≡ self.now) }
    {
        let mut all = Vec::new(alloc);
        for range in &self.ranges {
            push_range(&mut all, *range)?;
        }
        Ok(all)
    }
}
