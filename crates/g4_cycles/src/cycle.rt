// The first cycle of a graph.
ghost use Rattle.std.specs.Prelude.{◌≡◌, ◌<◌, ◌^◌, IfOk, MatchOption, Some, option_map, length, ℕ};
ghost use Rattle.g4_cycles.specs.Cycles.{Answers, IsShortestFrom, Reaches};
ghost use Rattle.g4_cycles.specs.Edges.{EdgeOf, IsReverse, successors_of};
ghost use Rattle.g4_cycles.specs.Marks.{AreDistances, HasDistance, IsAtDistance, IsLeast, lesser_of};

use crate::acyclic::acyclic_nodes;
use crate::distances::{distance, distances_to};
use crate::graph::{reverse, row};
use std::alloc::{AllocError, Global};

/// The lesser of two numbers, each of which may be absent.
fn lesser(a: Option<u32>, b: Option<u32>) -> Option<u32>
    ensures { result ≡ lesser_of a b }
{
    match (a, b) {
        (Some(a), Some(b)) => Some(a.min(b)),
        (Some(a), None) => Some(a),
        (None, b) => b,
    }
}

/// The least distance that one of the nodes has.
fn least_distance(distances: &[Option<u32>], nodes: &[u32]) -> Option<u32>
    ensures { IsLeast (HasDistance distances.now nodes.now) result }
{
    let mut least = None;
    for node in nodes {
        least = lesser(least, distance(distances, *node));
    }
    least
}

/// The least of the nodes that have this distance.
fn least_at(distances: &[Option<u32>], wanted: u32, nodes: &[u32]) -> Option<u32>
    ensures { IsLeast (IsAtDistance distances.now nodes.now wanted) result }
{
    let mut least = None;
    for node in nodes {
        if distance(distances, *node) == Some(wanted) {
            least = lesser(least, Some(*node));
        }
    }
    least
}

/// The least of the shortest cycles from a node, by the distances to it. The least distance of its
/// successors is given.
fn shortest_cycle(
    alloc: Global,
    graph: &[Vec<u32>],
    distances: &[Option<u32>],
    first: u32,
    least: u32,
) -> Result<Vec<u32>, AllocError>
    requires distances { AreDistances (EdgeOf graph.now) first distances.now }
    requires least { IsLeast (HasDistance distances.now (successors_of graph.now first)) (Some least) }
    ensures { IfOk result (λ cycle. IsShortestFrom (EdgeOf graph.now) first cycle.items) }
{
    let mut cycle = vec![in alloc; first]?;
    let mut node = first;
    for step in 0..least {
        let Some(next) = least_at(distances, least - step, row(graph, node)) else {
            unreachable!();
        };
        cycle.push(next)?;
        node = next;
    }
    Ok(cycle)
}

/// The least of the shortest cycles from a node, if the node is on a cycle.
fn cycle_from(
    alloc: Global,
    graph: &[Vec<u32>],
    reversed: &[Vec<u32>],
    first: u32,
) -> Result<Option<Vec<u32>>, AllocError>
    requires few { length graph.now < 2 ^ 32 }
    requires reversed { IsReverse graph.now reversed.now }
    requires first { first < length graph.now }
    ensures { IfOk result (λ found. MatchOption found (Reaches (EdgeOf graph.now) first first → ⊥)
        (λ cycle. IsShortestFrom (EdgeOf graph.now) first cycle.items)) }
{
    let distances = distances_to(alloc, reversed, first)?;
    match least_distance(distances.as_slice(), row(graph, first)) {
        None => Ok(None),
        Some(least) => {
            let cycle = shortest_cycle(alloc, graph, distances.as_slice(), first, least)?;
            Ok(Some(cycle))
        }
    }
}

/// Finds the shortest cycle from the least node that is on a cycle, and of several the least by the
/// numbers of its nodes. The list begins with that node, which is not repeated at its end.
///
/// The nodes are numbered from 0, and each has a list of its successors, in any order. A number past
/// the last node is a node without successors.
///
/// # Errors
/// No memory.
pub fn first_cycle(alloc: Global, successors: &[Vec<u32>]) -> Result<Option<Vec<u32>>, AllocError>
    requires { length successors.now < 2 ^ 32 }
    ensures { IfOk result (λ found. Answers (EdgeOf successors.now) (option_map (λ cycle. cycle.items) found)) }
{
    let reversed = reverse(alloc, successors)?;
    let acyclic = acyclic_nodes(alloc, successors, reversed.as_slice())?;
    for node in 0..successors.len() {
        if acyclic[node] {
            continue;
        }
        if let Some(cycle) = cycle_from(alloc, successors, reversed.as_slice(), node as u32)? {
            return Ok(Some(cycle));
        }
    }
    Ok(None)
}
