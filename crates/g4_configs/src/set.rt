// A group more in a map of nodes.
ghost use Rattle.std.specs.Prelude.{◌≡◌, ◌↔◌, ◌⊎◌, ℕ, List, Bool, IfOk, OnErr, OnOk, false};
ghost use Rattle.g4_configs.specs.Groups.{AreNodes, HasAt, InGroup, Subset, Within, node_at};
ghost use Rattle.g4_net.specs.Configurations.{Config};
ghost use Rattle.g4_stacks.specs.Graph.{HasOf, IsNode, Keeps};

use crate::group::Group;
use g4_stacks::Graph;
use std::alloc::AllocError;
use std::collections::HashMap;

/// The node of a state and an alternative.
fn node_of(graph: &Graph, nodes: &HashMap<(u32, u32), u32>, state: u32, alternative: u32) -> u32
    requires { AreNodes graph.now nodes.now.entries }
    ensures known { IsNode graph.now result }
    ensures means { (returns : List ℕ) (wild : Bool)
        → HasOf graph.now result returns wild ↔ HasAt graph.now (node_at nodes.now.entries (state, alternative)) returns wild }
{
    match nodes.get(&(state, alternative)).copied() {
        Some(node) => node,
        None => graph.empty(),
    }
}

/// Adds a group to the set: whether the set grew.
pub(crate) fn add(
    graph: &mut Graph,
    nodes: &mut HashMap<(u32, u32), u32>,
    group: Group,
) -> Result<bool, AllocError>
    requires nodes { AreNodes graph.old nodes.old.entries }
    requires node { IsNode graph.old group.stacks }
    ensures keeps { Keeps graph.old graph.new }
    ensures nodes { AreNodes graph.new nodes.new.entries }
    ensures unchanged { OnErr result ((c : Config) → Within graph.new nodes.new.entries c ↔ Within graph.old nodes.old.entries c) }
    ensures members { OnOk result ((c : Config)
        → Within graph.new nodes.new.entries c ↔ (Within graph.old nodes.old.entries c ⊎ InGroup graph.old group c)) }
    ensures grew { IfOk result (λ more. (more ≡ false) ↔ Subset (InGroup graph.old group) (Within graph.old nodes.old.entries)) }
{
    let before = node_of(graph, nodes, group.state, group.alternative);
    let both = graph.merge(before, group.stacks)?;
    graph.is_canonical();
    if graph.same(before, both) {
        return Ok(false);
    }
    nodes.insert((group.state, group.alternative), both)?;
    Ok(true)
}
