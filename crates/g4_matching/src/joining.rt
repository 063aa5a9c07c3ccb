// What two partitions tell apart together.
ghost use Rattle.std.specs.Prelude.{◌≡◌, ◌<◌, ◌≤◌, IfOk, MatchOption, length};
ghost use Rattle.g4_matching.specs.Joining.{IsEnd, IsNext, IsPast, TellsBoth};
ghost use Rattle.g4_matching.specs.Partitions.{IsPartition, classing};

use crate::pairs::Pairs;
use crate::partition::Partition;
use std::alloc::{AllocError, Global};

/// The lesser of the bounds at these places, of the two that there are.
fn next_bound(left: &[u32], at_left: usize, right: &[u32], at_right: usize) -> Option<u32>
    ensures { MatchOption result (IsEnd left.now at_left × IsEnd right.now at_right) (IsNext left.now at_left right.now at_right) }
{
    match (left.get(at_left), right.get(at_right)) {
        (Some(l), Some(r)) => Some(if *l <= *r { *l } else { *r }),
        (Some(l), None) => Some(*l),
        (None, Some(r)) => Some(*r),
        (None, None) => None,
    }
}

/// The place, or the one after it where the bound is at the place.
fn past(bounds: &[u32], at: usize, bound: u32) -> usize
    ensures { IsPast bounds.now at bound result }
{
    match bounds.get(at) {
        Some(found) if *found == bound => at + 1,
        _ => at,
    }
}

/// The partition with a class for each pair of classes that a number has, in time linear in the bounds of both but for the look-up of
/// pairs.
fn by_pairs(alloc: Global, left: &Partition, right: &Partition) -> Result<Partition, AllocError>
    requires left { IsPartition (classing left.now) }
    requires right { IsPartition (classing right.now) }
    ensures partition { IfOk result (λ p. IsPartition (classing p)) }
    ensures tells { IfOk result (λ p. TellsBoth (classing left.now) (classing right.now) (classing p)) }
{
    let mut pairs = Pairs::new(alloc);
    let mut bounds = Vec::new(alloc);
    let mut classes = Vec::new(alloc);
    let (mut at_left, mut at_right) = (0, 0);
    let first = pairs.number(left.classes[0], right.classes[0])?;
    classes.push(first)?;
    while let Some(bound) = next_bound(&left.bounds, at_left, &right.bounds, at_right) {
        at_left = past(&left.bounds, at_left, bound);
        at_right = past(&right.bounds, at_right, bound);
        let class = pairs.number(left.classes[at_left], right.classes[at_right])?;
        bounds.push(bound)?;
        classes.push(class)?;
    }
    let count = pairs.pairs.len();
    Ok(Partition {
        bounds,
        classes,
        count,
    })
}

/// The partition that tells two numbers apart where one of the two does.
pub(crate) fn joined(
    alloc: Global,
    left: Partition,
    right: Partition,
) -> Result<Partition, AllocError>
    requires left { IsPartition (classing left) }
    requires right { IsPartition (classing right) }
    ensures partition { IfOk result (λ p. IsPartition (classing p)) }
    ensures tells { IfOk result (λ p. TellsBoth (classing left) (classing right) (classing p)) }
{
    if left.count == 1 {
        return Ok(right);
    }
    if right.count == 1 {
        return Ok(left);
    }
    let partition = by_pairs(alloc, &left, &right)?;
    Ok(partition)
}
