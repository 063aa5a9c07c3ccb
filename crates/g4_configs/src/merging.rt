// Groups merged by their states and alternatives.
ghost use Rattle.std.specs.Prelude.{◌≡◌, ◌↔◌, ◌⊎◌, IfOk, OnOk, map};
ghost use Rattle.std.specs.HashMap.{IsUnique};
ghost use Rattle.g4_configs.specs.Configs.{Holds, KeepsStacks};
ghost use Rattle.g4_configs.specs.Groups.{AreKnown, AreNodes, AreParts, InSome, Same, Within, group_of};
ghost use Rattle.g4_net.specs.Configurations.{Config};
ghost use Rattle.g4_stacks.specs.Graph.{Keeps};
ghost use Rattle.g4_stacks.specs.Table.{pair_eq};

use crate::configs::Configs;
use crate::group::Group;
use crate::set::add;
use g4_stacks::Graph;
use std::alloc::{AllocError, Global};
use std::collections::HashMap;

/// The entries of a map of nodes as groups.
pub(crate) fn listed(
    alloc: Global,
    nodes: &HashMap<(u32, u32), u32>,
) -> Result<Vec<Group>, AllocError>
    ensures unique { IsUnique pair_eq nodes.now }
    ensures listed { IfOk result (λ found. found.items ≡ map group_of nodes.now.entries) }
{
    let mut found = Vec::with_capacity(alloc, nodes.len())?;
    for (key, stacks) in nodes {
        let (state, alternative) = *key;
        found.push(Group {
            state,
            alternative,
            stacks: *stacks,
        })?;
    }
    Ok(found)
}

/// Adds groups to a map of nodes.
pub(crate) fn add_each(
    graph: &mut Graph,
    nodes: &mut HashMap<(u32, u32), u32>,
    groups: &[Group],
) -> Result<(), AllocError>
    requires nodes { AreNodes graph.old nodes.old.entries }
    requires known { AreKnown graph.old groups.now }
    ensures keeps { Keeps graph.old graph.new }
    ensures nodes { AreNodes graph.new nodes.new.entries }
    ensures members { OnOk result ((c : Config)
        → Within graph.new nodes.new.entries c ↔ (Within graph.old nodes.old.entries c ⊎ InSome graph.old groups.now c)) }
{
    for group in groups {
        add(graph, nodes, *group)?;
    }
    Ok(())
}

impl Configs {
    /// The same configurations in groups of which no two have the same state and alternative.
    pub fn merged(&mut self, alloc: Global, groups: &[Group]) -> Result<Vec<Group>, AllocError>
        requires known { AreKnown self.old.graph groups.now }
        ensures keeps { KeepsStacks self.old self.new }
        ensures same { (c : Config) → Holds self.new c ↔ Holds self.old c }
        ensures parts { IfOk result (λ found. AreParts self.new.graph found.items) }
        ensures means { IfOk result (λ found. Same (InSome self.new.graph found.items) (InSome self.old.graph groups.now)) }
    {
        let mut nodes = HashMap::new(alloc);
        add_each(&mut self.graph, &mut nodes, groups)?;
        let found = listed(alloc, &nodes)?;
        Ok(found)
    }
}
