// Sets of high stacks and their shapes.
ghost use Rattle.std.specs.Prelude.{IfOk};
ghost use Rattle.g4_stacks.specs.Graph.{IsNode};

use g4_stacks::{Graph, Shape};
use std::alloc::{AllocError, Global};
use std::test::Fail;

/// How high the stacks are.
const HEIGHT: u32 = 200_000;

/// Two high stacks of the same return states, one above $ and one above #.
fn high(alloc: Global) -> Result<(Graph, u32, u32), AllocError>
    ensures left { IfOk result (λ made. IsNode made.0 made.1) }
    ensures right { IfOk result (λ made. IsNode made.0 made.2) }
{
    let mut graph = Graph::new(alloc)?;
    let mut left = graph.end();
    let mut right = graph.wild();
    for state in 0..HEIGHT {
        left = graph.push(left, state)?;
        right = graph.push(right, state)?;
    }
    Ok((graph, left, right))
}

/// The shape of the sets of a shape that are loaded into another graph.
fn loaded(alloc: Global, shape: &Shape) -> Result<Shape, AllocError> {
    let mut graph = Graph::new(alloc)?;
    let nodes = graph.load(shape)?;
    let shape = graph.canon(alloc, nodes.as_slice())?;
    Ok(shape)
}

/// Whether the set's shape is the same once it is loaded into another graph.
fn is_kept(alloc: Global, graph: &Graph, node: u32) -> Result<bool, AllocError>
    requires { IsNode graph.now node }
{
    let shape = graph.canon(alloc, &[node])?;
    Ok(shape.same(&loaded(alloc, &shape)?))
}

#[test]
fn high_stacks_are_merged_copied_and_loaded(rt: HostRuntime) -> Result<(), Fail> {
    let (mut graph, left, right) = high(rt.alloc())?;
    let both = graph.merge(left, right)?;
    assert_eq!(rt; graph.tops(both).len(), 1);
    assert!(rt; is_kept(rt.alloc(), &graph, both)?);
    Ok(())
}
