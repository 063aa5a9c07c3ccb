// Sets of stacks apart from any graph, to be compared and kept, and loaded into a graph again.
ghost use Rattle.std.specs.Prelude.{◌≡◌, ◌↔◌, ◌<◌, IsTrue, IfOk, All, length, map, slice_index};
ghost use Rattle.g4_stacks.specs.Graph.{IsNode, Keeps};
ghost use Rattle.g4_stacks.specs.Canonical.{LeadBelow};
ghost use Rattle.g4_stacks.specs.Taking.{with_tops, renumbered};
ghost use Rattle.g4_stacks.specs.Listing.{stacks_of};

mod hash;

use crate::content::NodeData;
use crate::copying::Copying;
use crate::graph::Graph;
use std::alloc::{AllocError, Global};
use std::collections::BTreeMap;
use std::marker::Model;

/// Some sets of stacks, apart from any graph: equal exactly where the sets are, in turn.
#[derive(Drop)]
pub struct Shape {
    nodes: Vec<NodeData>,
    roots: Vec<u32>,
}

impl Model for Shape {
    ghost use Rattle.std.specs.Prelude.{List, map};
    ghost use Rattle.g4_net.specs.Configurations.{Stack};
    ghost use Rattle.g4_stacks.specs.Listing.{stacks_of};
    ghost use Rattle.g4_stacks.specs.Taking.{IsCopy};

    ghost Value = { List (List Stack) };

    ghost view = { λ s. map (stacks_of s.nodes.items) s.roots.items };

    ghost invariant = { λ s. IsCopy s.nodes.items s.roots.items };
}

impl Shape {
    /// Whether the sets are the same, in turn.
    pub fn same(&self, other: &Shape) -> bool
        ensures { IsTrue result ↔ (self.now ≡ other.now) }
    {
        same_contents(self.nodes.as_slice(), other.nodes.as_slice())
            && self.roots.as_slice() == other.roots.as_slice()
    }
}

impl Graph {
    /// The sets of these nodes, apart from this graph.
    pub fn canon(&self, alloc: Global, roots: &[u32]) -> Result<Shape, AllocError>
        requires { All (IsNode self.now) roots.now }
        ensures { IfOk result (λ shape. shape ≡ map (stacks_of self.now) roots.now) }
    {
        self.is_canonical();
        let mut copying = Copying {
            graph: Graph::new(alloc)?,
            known: BTreeMap::new(alloc),
            alloc,
        };
        let mut taken = Vec::new(alloc);
        for root in roots {
            let node = copying.take(self, *root)?;
            taken.push(node)?;
        }
        let nodes = copied(alloc, copying.graph.contents())?;
        Ok(Shape {
            nodes,
            roots: taken,
        })
    }

    /// The nodes of the sets of a shape, made where the graph lacks them.
    pub fn load(&mut self, shape: &Shape) -> Result<Vec<u32>, AllocError>
        ensures keeps { Keeps self.old self.new }
        ensures known { IfOk result (λ nodes. All (IsNode self.new) nodes.items) }
        ensures means { IfOk result (λ nodes. map (stacks_of self.new) nodes.items ≡ shape.now) }
    {
        self.is_canonical();
        let alloc = self.alloc;
        let mut numbers = Vec::new(alloc);
        for held in shape.nodes.as_slice() {
            let wanted = with_numbers(alloc, held, numbers.as_slice())?;
            let node = self.intern(wanted)?;
            numbers.push(node)?;
        }
        let nodes = numbers_at(alloc, numbers.as_slice(), shape.roots.as_slice())?;
        Ok(nodes)
    }
}

/// A copy of the contents.
fn copied(alloc: Global, contents: &[NodeData]) -> Result<Vec<NodeData>, AllocError>
    ensures { IfOk result (λ copies. copies.items ≡ contents.now) }
{
    let mut copies = Vec::new(alloc);
    for held in contents {
        copies.push(held.copy(alloc)?)?;
    }
    Ok(copies)
}

/// The content with other numbers for the nodes that its tops lead to.
fn with_numbers(alloc: Global, held: &NodeData, numbers: &[u32]) -> Result<NodeData, AllocError>
    requires { LeadBelow (length numbers.now) held.now.tops }
    ensures { IfOk result (λ made. made ≡ with_tops held.now (renumbered numbers.now held.now.tops)) }
{
    let mut tops = Vec::new(alloc);
    for top in held.tops.as_slice() {
        let (state, node) = *top;
        tops.push((state, numbers[node as usize]))?;
    }
    Ok(NodeData {
        end: held.end,
        wild: held.wild,
        tops,
    })
}

/// The numbers at these places.
fn numbers_at(alloc: Global, numbers: &[u32], places: &[u32]) -> Result<Vec<u32>, AllocError>
    requires { All (λ place. place < length numbers.now) places.now }
    ensures { IfOk result (λ found. found.items ≡ map (slice_index numbers.now) places.now) }
{
    let mut found = Vec::new(alloc);
    for place in places {
        found.push(numbers[*place as usize])?;
    }
    Ok(found)
}

/// Whether the contents are equal.
fn same_contents(left: &[NodeData], right: &[NodeData]) -> bool
    ensures { IsTrue result ↔ (left.now ≡ right.now) }
{
    if left.len() != right.len() {
        return false;
    }
    for (place, held) in left.iter().enumerate() {
        if !same_data(held, &right[place]) {
            return false;
        }
    }
    true
}

/// Whether two contents are equal.
fn same_data(left: &NodeData, right: &NodeData) -> bool
    ensures { IsTrue result ↔ (left.now ≡ right.now) }
{
    if left.end != right.end {
        return false;
    }
    if left.wild != right.wild {
        return false;
    }
    left.tops.as_slice() == right.tops.as_slice()
}
