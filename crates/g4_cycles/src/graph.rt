// Graphs as a list of successors for each node.
ghost use Rattle.std.specs.Prelude.{◌≡◌, ◌<◌, ◌^◌, IfOk, OnOk, [], length, ℕ};
ghost use Rattle.g4_cycles.specs.Edges.{AddsReversed, IsReverse, successors_of};

use std::alloc::{AllocError, Global};

/// The successors of a node.
pub fn row(graph: &[Vec<u32>], node: u32) -> &[u32]
    ensures { result.now ≡ successors_of graph.now node }
{
    match graph.get(node as usize) {
        Some(successors) => successors.as_slice(),
        None => &[],
    }
}

/// A graph with this many nodes and no edge.
fn without_edges(alloc: Global, nodes: usize) -> Result<Vec<Vec<u32>>, AllocError>
    ensures size { IfOk result (λ graph. length graph.items ≡ nodes) }
    ensures none { IfOk result (λ graph. (k : ℕ) → successors_of graph.items k ≡ []) }
{
    let mut graph = Vec::with_capacity(alloc, nodes)?;
    'nodes: for _ in 0..nodes {
        graph.push(Vec::new(alloc))?;
    }
    Ok(graph)
}

/// Adds an edge to this node from each of its successors, but for those past the last node.
fn add_reversed(reversed: &mut [Vec<u32>], node: u32, successors: &[u32]) -> Result<(), AllocError>
    ensures { OnOk result (AddsReversed node successors.now reversed.old reversed.new) }
{
    for next in successors {
        let index = *next as usize;
        if index < reversed.len() {
            reversed[index].push(node)?;
        }
    }
    Ok(())
}

/// The graph with each edge reversed.
pub fn reverse(alloc: Global, graph: &[Vec<u32>]) -> Result<Vec<Vec<u32>>, AllocError>
    requires { length graph.now < 2 ^ 32 }
    ensures { IfOk result (λ reversed. IsReverse graph.now reversed.items) }
{
    let mut reversed = without_edges(alloc, graph.len())?;
    for (node, successors) in graph.iter().enumerate() {
        add_reversed(&mut reversed, node as u32, successors.as_slice())?;
    }
    Ok(reversed)
}
