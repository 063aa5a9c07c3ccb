// A depth-first post-order of a graph.
ghost use Rattle.std.specs.Prelude.{◌≡◌, ◌<◌, ◌^◌, IfSome, IsTrue, ◌↔◌, false, length, slice_get, Some, slice_index};

use crate::graph::row;
use std::alloc::{AllocError, Global};

/// A node that is being visited, and the index of its successor to look at next.
#[derive(Clone, Copy)]
struct Place {
    node: u32,
    next: usize,
}

/// Whether the node is one of the graph's that has not been visited.
fn is_new(visited: &[bool], node: u32) -> bool
    ensures { IsTrue result ↔ (slice_get visited.now node ≡ Some false) }
{
    match visited.get(node as usize) {
        Some(visited) => !*visited,
        None => false,
    }
}

/// The index of the first successor, from this index on, that has not been visited.
fn next_new(successors: &[u32], from: usize, visited: &[bool]) -> Option<usize>
    ensures { IfSome result (λ i. (i < length successors.now) × (slice_get visited.now (slice_index successors.now i) ≡ Some false)) }
{
    for index in from..successors.len() {
        if is_new(visited, successors[index]) {
            return Some(index);
        }
    }
    None
}

/// Visits all new nodes that a node leads to, and adds each to the order once it leads to no new one.
fn visit(
    alloc: Global,
    graph: &[Vec<u32>],
    root: u32,
    visited: &mut [bool],
    order: &mut Vec<u32>,
) -> Result<(), AllocError> {
    let mut stack = vec![in alloc;
        Place {
            node: root,
            next: 0
        },
    ]?;
    'places: while let Some(Place { node, next }) = stack.pop() {
        let successors = row(graph, node);
        match next_new(successors, next, visited) {
            None => order.push(node)?,
            Some(index) => {
                let new = successors[index];
                visited[new as usize] = true;
                let next = index + 1;
                stack.push(Place { node, next })?;
                stack.push(Place { node: new, next: 0 })?;
            }
        }
    }
    Ok(())
}

/// All nodes, each after the nodes that a depth-first search finds from it.
pub fn post_order(alloc: Global, graph: &[Vec<u32>]) -> Result<Vec<u32>, AllocError>
    requires { length graph.now < 2 ^ 32 }
{
    let mut visited = vec![in alloc; false; graph.len()]?;
    let mut order = Vec::with_capacity(alloc, graph.len())?;
    for root in 0..graph.len() {
        if !visited[root] {
            visited[root] = true;
            visit(alloc, graph, root as u32, &mut visited, &mut order)?;
        }
    }
    Ok(order)
}
