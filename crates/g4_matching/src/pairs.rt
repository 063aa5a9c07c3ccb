// Pairs of numbers, by number.
ghost use Rattle.std.specs.Prelude.{◌≡◌, ◌<◌, ◌≤◌, ◌^◌, IfOk, OnErr, Some, [], length, slice_get};
ghost use Rattle.g4_matching.specs.Pairs.{Grows, IsNumbering};

use std::alloc::{AllocError, Global};
use std::collections::BTreeMap;

/// Pairs of numbers, each once, and the number of each: its place.
#[derive(Drop)]
pub(crate) struct Pairs {
    pub pairs: Vec<(u32, u32)>,
    numbers: BTreeMap<(u32, u32), u32>,
}

impl Pairs {
    /// No pairs.
    pub fn new(alloc: Global) -> Pairs
        ensures none { result.pairs.items ≡ [] }
        ensures numbering { IsNumbering result }
    {
        Pairs {
            pairs: Vec::new(alloc),
            numbers: BTreeMap::new(alloc),
        }
    }

    /// The number of a pair, which is the next one where the pair is new. There is no memory for more pairs than a `u32` counts.
    pub fn number(&mut self, left: u32, right: u32) -> Result<u32, AllocError>
        requires { IsNumbering self.old }
        ensures numbering { IfOk result (λ _. IsNumbering self.new) }
        ensures grows { IfOk result (λ _. Grows self.old.pairs.items self.new.pairs.items) }
        ensures holds { IfOk result (λ n. slice_get self.new.pairs.items n ≡ Some (left, right)) }
    {
        let found = self.numbers.get(&(left, right)).copied();
        if let Some(number) = found {
            return Ok(number);
        }
        let number = self.pairs.len();
        if number >= u32::MAX as usize {
            return Err(AllocError);
        }
        self.numbers.insert((left, right), number as u32)?;
        self.pairs.push((left, right))?;
        Ok(number as u32)
    }
}
