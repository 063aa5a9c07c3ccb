// The sums of the sets of a shape.
ghost use Rattle.std.specs.Prelude.{◌≡◌, ◌<◌, ℕ, List, Some, IfOk, All, length, map};
ghost use Rattle.g4_net.specs.Configurations.{Stack};
ghost use Rattle.g4_stacks.specs.Canonical.{IsCanonical, LeadBelow};
ghost use Rattle.g4_stacks.specs.Listing.{above, listed, stacks_of};
ghost use Rattle.g4_stacks.specs.Hashing.{AreSumsOf, EachSum, IsSumOf};

use crate::content::NodeData;
use crate::shape::Shape;
use crate::sum::Sum;
use std::alloc::{AllocError, Global};

/// The sum of all stacks that have a state on top, by the sums of what is below.
fn sum_above(tops: &[(u32, u32)], below: &[Sum]) -> Sum
    requires { LeadBelow (length below.now) tops.now }
    ensures { (rests : ℕ → List Stack) → AreSumsOf below.now rests → IsSumOf result (above rests tops.now) }
{
    let mut sum = Sum::nothing();
    for (state, node) in tops {
        sum = sum.plus(below[*node as usize].below(*state));
    }
    sum
}

/// The sum of what a node holds, by the sums of the nodes before it.
fn sum_of_node(held: &NodeData, below: &[Sum]) -> Sum
    requires { LeadBelow (length below.now) held.now.tops }
    ensures { (rests : ℕ → List Stack) → AreSumsOf below.now rests → IsSumOf result (listed rests (Some held.now)) }
{
    let marks = Sum::mark(held.wild, 2).plus(sum_above(held.tops.as_slice(), below));
    Sum::mark(held.end, 1).plus(marks)
}

/// The sums of nodes, in order.
fn sums_of_nodes(alloc: Global, nodes: &[NodeData]) -> Result<Vec<Sum>, AllocError>
    requires { IsCanonical nodes.now }
    ensures count { IfOk result (λ sums. length sums.items ≡ length nodes.now) }
    ensures sums { IfOk result (λ sums. AreSumsOf sums.items (stacks_of nodes.now)) }
{
    let mut sums = Vec::with_capacity(alloc, nodes.len())?;
    for held in nodes {
        let sum = sum_of_node(held, sums.as_slice());
        sums.push(sum)?;
    }
    Ok(sums)
}

/// The sums at these places.
fn sums_at(alloc: Global, sums: &[Sum], places: &[u32]) -> Result<Vec<Sum>, AllocError>
    requires { All (λ place. place < length sums.now) places.now }
    ensures { IfOk result (λ found. (lists : ℕ → List Stack) → AreSumsOf sums.now lists → EachSum found.items (map lists places.now)) }
{
    let mut found = Vec::with_capacity(alloc, places.len())?;
    for place in places {
        found.push(sums[*place as usize])?;
    }
    Ok(found)
}

impl Shape {
    /// The sums of the sets, in turn. The time is that of the shape's size.
    ///
    /// # Errors
    /// No memory.
    pub fn sums(&self, alloc: Global) -> Result<Vec<Sum>, AllocError>
        ensures { IfOk result (λ sums. EachSum sums.items self.now) }
    {
        let sums = sums_of_nodes(alloc, self.nodes.as_slice())?;
        let found = sums_at(alloc, sums.as_slice(), self.roots.as_slice())?;
        Ok(found)
    }
}
