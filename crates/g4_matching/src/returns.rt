// A store of return states.
ghost use Rattle.std.specs.Prelude.{◌≡◌, ◌<◌, ◌∷◌, [], IfOk, MatchOption, Some, length, slice_get, slice_index_or};
ghost use Rattle.g4_matching.specs.Returns.{Grows, IsDistinct, IsEmptyFirst, pushed};

use std::alloc::{AllocError, Global};
use std::collections::BTreeMap;
use std::marker::Model;

/// Lists of return states by number, each once. Number 0 is the empty list. Each other list is a state on a list with a
/// lesser number.
#[derive(Drop)]
pub(crate) struct Returns {
    nodes: Vec<(u32, u32)>,
    numbers: BTreeMap<(u32, u32), u32>,
}

impl Model for Returns {
    ghost use Rattle.std.specs.Prelude.{List, ℕ};

    ghost Value = { List (List ℕ) };

    ghost use Rattle.g4_matching.specs.Returns.{lists_of, IsStore};

    ghost view = { λ s. lists_of s.nodes.items };

    ghost invariant = { λ s. IsStore s.nodes.items s.numbers };
}

impl Returns {
    /// The empty list alone.
    pub fn new(alloc: Global) -> Returns
        ensures { result ≡ [] ∷ [] }
    {
        Returns {
            nodes: Vec::new(alloc),
            numbers: BTreeMap::new(alloc),
        }
    }

    /// How many lists there are.
    pub fn len(&self) -> usize
        ensures { result ≡ length self.now }
    {
        self.nodes.len() + 1
    }

    /// Nothing: the caller learns that each list is there once, and the empty one first.
    pub fn is_whole(&self)
        ensures distinct { IsDistinct self.now }
        ensures empty { IsEmptyFirst self.now }
    {
        let _ = &self.nodes;
    }

    /// Leaves the empty list alone.
    pub fn clear(&mut self)
        ensures { self.new ≡ [] ∷ [] }
    {
        self.nodes.clear();
        self.numbers.clear();
    }

    /// The state on top of a list, and the number of the list below it.
    pub fn top(&self, number: u32) -> Option<(u32, u32)>
        requires { number < length self.now }
        ensures { MatchOption result (slice_index_or self.now number [] ≡ [])
            (λ p. (p.1 < length self.now) × (slice_index_or self.now number [] ≡ pushed self.now p.0 p.1)) }
    {
        let nodes = self.nodes.as_slice();
        if number == 0 {
            return None;
        }
        Some(nodes[number as usize - 1])
    }

    /// The number of the list with this state on top of that list. There is no memory for more lists than a `u32` counts.
    pub fn push(&mut self, state: u32, below: u32) -> Result<u32, AllocError>
        requires { below < length self.old }
        ensures grows { IfOk result (λ _. Grows self.old self.new) }
        ensures holds { IfOk result (λ n. slice_get self.new n ≡ Some (pushed self.old state below)) }
    {
        let found = self.numbers.get(&(state, below)).copied();
        if let Some(n) = found {
            return Ok(n);
        }
        let n = self.nodes.len() + 1;
        if n >= u32::MAX as usize {
            return Err(AllocError);
        }
        self.nodes.reserve(1)?;
        self.numbers.insert((state, below), n as u32)?;
        self.nodes.push_reserved((state, below));
        Ok(n as u32)
    }
}
