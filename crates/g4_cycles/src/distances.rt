// Distances of nodes to a root, by a search along reversed edges.
ghost use Rattle.std.specs.Prelude.{◌≡◌, ◌<◌, ◌^◌, ◌↔◌, Contains, IfOk, IsTrue, OnOk, length, ℕ};
ghost use Rattle.g4_cycles.specs.Edges.{Backward, EdgeOf};
ghost use Rattle.g4_cycles.specs.Marks.{AreDistances, AreMarked, IsOpen, IsSpread, LeadsTo, distance_of};

use crate::graph::row;
use std::alloc::{AllocError, Global};

/// The distance that a node has, if it has one.
pub fn distance(distances: &[Option<u32>], node: u32) -> Option<u32>
    ensures { result ≡ distance_of distances.now node }
{
    match distances.get(node as usize) {
        Some(distance) => *distance,
        None => None,
    }
}

/// Whether the node is one of the graph's that has no distance.
pub fn is_open(distances: &[Option<u32>], node: u32) -> bool
    ensures { IsTrue result ↔ IsOpen distances.now node }
{
    (node as usize) < distances.len() && distance(distances, node).is_none()
}

/// Gives this distance to those of the nodes that have none, and lists them.
fn mark(
    distances: &mut [Option<u32>],
    distance: u32,
    nodes: &[u32],
    found: &mut Vec<u32>,
) -> Result<(), AllocError>
    ensures { OnOk result (AreMarked (Contains nodes.now) distance distances.old found.old.items distances.new found.new.items) }
{
    for node in nodes {
        if is_open(distances, *node) {
            distances[*node as usize] = Some(distance);
            found.push(*node)?;
        }
    }
    Ok(())
}

/// Gives this distance to the nodes that lead to some of the level and have none, and lists them.
fn mark_before(
    reversed: &[Vec<u32>],
    level: &[u32],
    distances: &mut [Option<u32>],
    distance: u32,
    found: &mut Vec<u32>,
) -> Result<(), AllocError>
    ensures { OnOk result (AreMarked (LeadsTo reversed.now level.now) distance distances.old found.old.items distances.new
        found.new.items) }
{
    for node in level {
        mark(distances, distance, row(reversed, *node), found)?;
    }
    Ok(())
}

/// Gives the root the distance 0, and each open node that leads to it through open nodes its
/// distance to it.
pub fn spread(
    alloc: Global,
    reversed: &[Vec<u32>],
    root: u32,
    distances: &mut [Option<u32>],
) -> Result<(), AllocError>
    requires few { length distances.old < 2 ^ 32 }
    requires open { IsOpen distances.old root }
    requires within { (k i : ℕ) → EdgeOf reversed.now i k → k < length distances.old }
    ensures { OnOk result (IsSpread (Backward reversed.now) root distances.old distances.new) }
{
    distances[root as usize] = Some(0);
    let mut distance = 0;
    let mut level = vec![in alloc; root]?;
    'levels: while !level.is_empty() {
        distance += 1;
        let mut found = Vec::new(alloc);
        mark_before(reversed, level.as_slice(), distances, distance, &mut found)?;
        level = found;
    }
    Ok(())
}

/// The distances of all nodes that lead to the root.
pub fn distances_to(
    alloc: Global,
    reversed: &[Vec<u32>],
    root: u32,
) -> Result<Vec<Option<u32>>, AllocError>
    requires few { length reversed.now < 2 ^ 32 }
    requires root { root < length reversed.now }
    requires within { (k i : ℕ) → EdgeOf reversed.now i k → k < length reversed.now }
    ensures size { IfOk result (λ distances. length distances.items ≡ length reversed.now) }
    ensures exact { IfOk result (λ distances. AreDistances (Backward reversed.now) root distances.items) }
{
    let mut distances = vec![in alloc; None; reversed.len()]?;
    spread(alloc, reversed, root, &mut distances)?;
    Ok(distances)
}
