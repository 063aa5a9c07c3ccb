// Nodes that are on no cycle.
ghost use Rattle.std.specs.Prelude.{◌≡◌, ◌<◌, ◌^◌, ◌↔◌, All, IfOk, IsTrue, IsSome, Some, length, slice_get, true, ℕ};
ghost use Rattle.g4_cycles.specs.Cycles.{Reaches};
ghost use Rattle.g4_cycles.specs.Edges.{Backward, EdgeOf};
ghost use Rattle.g4_cycles.specs.Marks.{distance_of};

use crate::distances::{distance, is_open, spread};
use crate::graph::row;
use crate::order::post_order;
use std::alloc::{AllocError, Global};

/// Whether all of the nodes have distances.
fn have_distances(distances: &[Option<u32>], nodes: &[u32]) -> bool
    ensures { IsTrue result ↔ All (λ k. IsSome (distance_of distances.now k)) nodes.now }
{
    nodes
        .iter()
        .all(|node| distance(distances, *node).is_some())
}

/// For each node, whether it is marked as on no cycle.
///
/// A node is marked where a search from it, against the edges, finds no new node, itself included.
/// Such a node is on no cycle, in whatever order the searches begin. In reverse post-order each
/// search finds the nodes that both reach its root and are reached by it, so each node that is on
/// no cycle is marked.
pub fn acyclic_nodes(
    alloc: Global,
    graph: &[Vec<u32>],
    reversed: &[Vec<u32>],
) -> Result<Vec<bool>, AllocError>
    requires few { length graph.now < 2 ^ 32 }
    requires size { length reversed.now ≡ length graph.now }
    requires within { (k i : ℕ) → EdgeOf reversed.now i k → k < length reversed.now }
    ensures size { IfOk result (λ acyclic. length acyclic.items ≡ length graph.now) }
    ensures sound { IfOk result (λ acyclic. (k : ℕ) → slice_get acyclic.items k ≡ Some true → Reaches (Backward reversed.now) k k → ⊥) }
{
    let order = post_order(alloc, graph)?;
    let mut found = vec![in alloc; None; graph.len()]?;
    let mut acyclic = vec![in alloc; false; graph.len()]?;
    for node in order.as_slice().iter().rev() {
        if !is_open(&found, *node) {
            continue;
        }
        acyclic[*node as usize] = have_distances(&found, row(reversed, *node));
        spread(alloc, reversed, *node, &mut found)?;
    }
    Ok(acyclic)
}
