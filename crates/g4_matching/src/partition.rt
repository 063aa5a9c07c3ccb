// Numbers in parts, each of which has a class.
ghost use Rattle.std.specs.Prelude.{◌≡◌, IfOk};
ghost use Rattle.std.specs.List.Sorted.{IsStrictlyIncreasing};
ghost use Rattle.g4_chars.specs.CharSets.{IsCanonical};
ghost use Rattle.g4_matching.specs.Partitions.{AreAlternate, IsPartition, TellsSet, class_in, classing, part_in};

use crate::bounds::push_ranges;
use g4_chars::Range;
use std::alloc::{AllocError, Global};

/// All numbers, in parts between bounds, and the class of each part. Classes are numbered from 0.
#[derive(Drop)]
pub(crate) struct Partition {
    /// Where the parts after the first begin, the least first.
    pub bounds: Vec<u32>,
    /// For each part its class.
    pub classes: Vec<u32>,
    /// How many classes there are.
    pub count: usize,
}

/// How many of the bounds are not past the number.
pub(crate) fn part_in(bounds: &[u32], number: u32) -> usize
    requires { IsStrictlyIncreasing bounds.now }
    ensures { result ≡ part_in bounds.now number }
{
    bounds.partition_point(|bound| *bound <= number)
}

/// The classes of parts that are 0 and 1 in turn.
fn alternate(alloc: Global, parts: usize) -> Result<Vec<u32>, AllocError>
    ensures { IfOk result (λ classes. AreAlternate parts classes.items) }
{
    let mut classes = Vec::new(alloc);
    let mut class = 0;
    for _ in 0..parts {
        classes.push(class)?;
        class = 1 - class;
    }
    Ok(classes)
}

impl Partition {
    /// All numbers in one class.
    pub fn whole(alloc: Global) -> Result<Partition, AllocError>
        ensures partition { IfOk result (λ p. IsPartition (classing p)) }
        ensures whole { IfOk result (λ p. p.count ≡ 1) }
    {
        let mut classes = Vec::new(alloc);
        classes.push(0)?;
        Ok(Partition {
            bounds: Vec::new(alloc),
            classes,
            count: 1,
        })
    }

    /// The characters of ranges in one class, and all other numbers in the other.
    pub fn of_ranges(alloc: Global, ranges: &[Range]) -> Result<Partition, AllocError>
        requires { IsCanonical ranges.now }
        ensures partition { IfOk result (λ p. IsPartition (classing p)) }
        ensures tells { IfOk result (λ p. TellsSet ranges.now (classing p)) }
    {
        if ranges.is_empty() {
            let partition = Partition::whole(alloc)?;
            return Ok(partition);
        }
        let mut bounds = Vec::new(alloc);
        push_ranges(&mut bounds, ranges)?;
        let classes = alternate(alloc, bounds.len() + 1)?;
        Ok(Partition {
            bounds,
            classes,
            count: 2,
        })
    }

    /// The same partition.
    pub fn copy(&self, alloc: Global) -> Result<Partition, AllocError>
        ensures { IfOk result (λ p. classing p ≡ classing self.now) }
    {
        let bounds = self.bounds.as_slice().to_vec(alloc)?;
        let classes = self.classes.as_slice().to_vec(alloc)?;
        Ok(Partition {
            bounds,
            classes,
            count: self.count,
        })
    }

    /// The class of a number.
    pub fn class_of(&self, number: u32) -> u32
        requires { IsPartition (classing self.now) }
        ensures { result ≡ class_in (classing self.now) number }
    {
        let part = part_in(self.bounds.as_slice(), number);
        self.classes[part]
    }
}
