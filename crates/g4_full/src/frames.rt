// Framed sets by number, and the steps between them.
ghost use Rattle.std.specs.Prelude.{◌≡◌, ◌<◌, ◌++◌, [], ◌∷◌, IfOk, IfSome, OnErr, length, true};
ghost use Rattle.g4_full.specs.Remembered.{HasRow, IsForgotten, KeepsTables};
ghost use Rattle.g4_full.specs.declared.frames.TheConstants.{MOST_SETS};

use crate::shown::Shown;
use g4_configs::Snapshot;
use std::alloc::{AllocError, Global};
use std::collections::HashMap;

/// The most sets that are remembered.
const MOST_SETS: usize = 24_576;

/// The most steps that are remembered.
const MOST_STEPS: usize = 196_608;

/// Sets of more groups and steps than these are large: they take more than some 5 kilobytes.
const LARGE: usize = 100;

/// For how many small sets a large one counts: so there are at most 4,096 large ones.
const COUNT_OF_LARGE: usize = 6;

/// A framed set, and what is asked of it.
#[derive(Drop)]
pub(crate) struct Frame {
    pub set: Snapshot,
    /// Whether something may be at the hole.
    pub at_hole: bool,
    /// What is shown by what is kept of the set.
    pub shown: Shown,
    /// By how many steps it was made from a decision's start.
    pub depth: usize,
    /// How many groups of configurations it has.
    pub groups: usize,
    /// The number of an earlier set with the same code.
    pub earlier: Option<u32>,
}

/// Framed sets by number, and the steps between them, as they are made. Each stays until all are forgotten.
#[derive(Drop)]
pub(crate) struct Frames {
    pub sets: Vec<Frame>,
    /// The start set of a decision under a condition.
    pub starts: HashMap<(u32, u32), u32>,
    /// The set after a set and a symbol.
    pub symbols: HashMap<(u32, u32), u32>,
    /// The set after a set and a return state, which is put in the place of the hole.
    pub returns: HashMap<(u32, u32), u32>,
    /// For each code the number of the newest set with it.
    newest: HashMap<u64, u32>,
    /// How many small sets there are, and large ones, each of which counts for more.
    weight: usize,
}

/// For how many small sets a set counts. Its stacks grow with the steps by which it was made.
fn weight_of(frame: &Frame) -> usize {
    let size = frame
        .groups
        .saturating_add(frame.depth)
        .saturating_add(frame.depth);
    if size > LARGE { COUNT_OF_LARGE } else { 1 }
}

/// The number, where it is less than that other one.
fn earlier_than(number: Option<u32>, other: u32) -> Option<u32>
    ensures { IfSome result (λ n. n < other) }
{
    match number {
        Some(n) if n < other => Some(n),
        _ => None,
    }
}

impl Frames {
    /// With no set and no step.
    pub fn new(alloc: Global) -> Frames
        ensures { IsForgotten result }
    {
        Frames {
            sets: Vec::new(alloc),
            starts: HashMap::new(alloc),
            symbols: HashMap::new(alloc),
            returns: HashMap::new(alloc),
            newest: HashMap::new(alloc),
            weight: 0,
        }
    }

    /// Forgets all sets and steps.
    pub fn forget(&mut self)
        ensures { IsForgotten self.new }
    {
        self.sets.clear();
        self.starts.clear();
        self.symbols.clear();
        self.returns.clear();
        self.newest.clear();
        self.weight = 0;
    }

    /// Whether a step more may be remembered, with a set more.
    pub fn has_room(&self) -> bool
        ensures { result ≡ true → length self.now.sets.items < MOST_SETS }
    {
        let starts = self.starts.len();
        let steps = self.symbols.len().saturating_add(self.returns.len());
        self.sets.len() < MOST_SETS
            && starts.saturating_add(steps) < MOST_STEPS
            && self.weight < MOST_SETS
    }

    /// The number of the set with these configurations, which have this code.
    pub fn find(&self, row: &Snapshot, code: u64) -> Option<u32>
        ensures { IfSome result (λ n. HasRow self.now n row.now) }
    {
        let mut next = self.newest.get(&code).copied();
        while let Some(number) = next {
            let frame = self.sets.as_slice().get(number as usize)?;
            if frame.set.same(row) {
                return Some(number);
            }
            next = earlier_than(frame.earlier, number);
        }
        None
    }

    /// The number of the newest set with this code.
    pub fn newest_with(&self, code: u64) -> Option<u32> {
        self.newest.get(&code).copied()
    }

    /// Remembers a set with this code, under the next number.
    pub fn add(&mut self, frame: Frame, code: u64) -> Result<u32, AllocError>
        requires room { length self.old.sets.items < MOST_SETS }
        ensures tables { KeepsTables self.old self.new }
        ensures added { IfOk result (λ n. (n ≡ length self.old.sets.items) × (self.new.sets.items ≡ self.old.sets.items ++ frame ∷ [])) }
        ensures unchanged { OnErr result (self.new.sets.items ≡ self.old.sets.items) }
    {
        let number = self.sets.len() as u32;
        self.sets.reserve(1)?;
        self.newest.insert(code, number)?;
        self.weight = self.weight.saturating_add(weight_of(&frame));
        self.sets.push_reserved(frame);
        Ok(number)
    }
}
