// One stack as a set.
ghost use Rattle.std.specs.Prelude.{◌≡◌, ◌↔◌, IfOk, reverse};
ghost use Rattle.g4_net.specs.Configurations.{Stack};
ghost use Rattle.g4_stacks.specs.Graph.{Has, IsNode, Keeps};

use g4_stacks::Graph;
use std::alloc::AllocError;

/// The stack of these return states, newest last.
pub(crate) fn bottom(graph: &mut Graph, returns: &[u32], wild: bool) -> Result<u32, AllocError>
    ensures keeps { Keeps graph.old graph.new }
    ensures known { IfOk result (λ n. IsNode graph.new n) }
    ensures means { IfOk result (λ n. (s : Stack) → Has graph.new n s ↔ (s ≡ record { returns = reverse returns.now; wild = wild })) }
{
    let mut node = if wild { graph.wild() } else { graph.end() };
    for state in returns {
        node = graph.push(node, *state)?;
    }
    Ok(node)
}
