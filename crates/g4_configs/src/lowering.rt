// Return states put below the stacks of a set.
ghost use Rattle.std.specs.Prelude.{◌≡◌, ◌↔◌, ◌≤◌, All, IfOk, length, map, reverse};
ghost use Rattle.g4_configs.specs.Configs.{Holds};
ghost use Rattle.g4_configs.specs.declared.group.Group.{Group};
ghost use Rattle.g4_configs.specs.Groups.{AreKnown, InSome};
ghost use Rattle.g4_configs.specs.Lowering.{HasImage, IsLoweredOf, imaged, with_stacks};
ghost use Rattle.g4_net.specs.Configurations.{Config};

use crate::bottom::bottom;
use crate::configs::Configs;
use crate::group::Group;
use g4_stacks::Graph;
use std::alloc::{AllocError, Global};
use std::collections::HashMap;

/// Groups, and an empty set that has their sets of stacks.
#[derive(Drop)]
pub struct Lowered {
    pub set: Configs,
    pub groups: Vec<Group>,
}

/// Groups in a graph of their own.
#[derive(Drop)]
struct Own {
    graph: Graph,
    groups: Vec<Group>,
}

/// The sets of stacks of the groups.
fn stacks_of(alloc: Global, groups: &[Group]) -> Result<Vec<u32>, AllocError>
    ensures { IfOk result (λ found. found.items ≡ map (λ (x : Group). x.stacks) groups.now) }
{
    groups.iter().map(|group| group.stacks).collect(alloc)
}

/// The groups with other sets of stacks, in turn.
fn with_nodes(alloc: Global, groups: &[Group], nodes: &[u32]) -> Result<Vec<Group>, AllocError>
    requires { length groups.now ≤ length nodes.now }
    ensures { IfOk result (λ found. found.items ≡ with_stacks groups.now nodes.now) }
{
    let mut found = Vec::new(alloc);
    for (k, group) in groups.iter().enumerate() {
        found.push(Group {
            stacks: nodes[k],
            ..*group
        })?;
    }
    Ok(found)
}

/// The groups with the images of their sets of stacks.
fn image_groups(alloc: Global, groups: &[Group], images: &[u32]) -> Result<Vec<Group>, AllocError>
    requires { All (HasImage images.now) groups.now }
    ensures { IfOk result (λ found. found.items ≡ map (imaged images.now) groups.now) }
{
    let mut found = Vec::new(alloc);
    for group in groups {
        found.push(Group {
            stacks: images[group.stacks as usize],
            ..*group
        })?;
    }
    Ok(found)
}

impl Configs {
    /// The groups of the set, in a graph that has no other nodes than theirs and those below.
    fn own(&self, alloc: Global) -> Result<Own, AllocError>
        ensures known { IfOk result (λ own. AreKnown own.graph own.groups.items) }
        ensures means { IfOk result (λ own. (c : Config) → InSome own.graph own.groups.items c ↔ Holds self.now c) }
    {
        let groups = self.groups(alloc)?;
        let roots = stacks_of(alloc, groups.as_slice())?;
        let part = self.graph.part(alloc, roots.as_slice())?;
        let own = with_nodes(alloc, groups.as_slice(), part.nodes.as_slice())?;
        Ok(Own {
            graph: part.graph,
            groups: own,
        })
    }

    /// The groups of the set, those of their stacks that are above the bottom of the parser's stack, with these return states below
    /// them, newest last.
    pub fn lowered(&self, alloc: Global, states: &[u32]) -> Result<Lowered, AllocError>
        ensures known { IfOk result (λ lowered. AreKnown lowered.set.graph lowered.groups.items) }
        ensures empty { IfOk result (λ lowered. (c : Config) → Holds lowered.set c → ⊥) }
        ensures means { IfOk result (λ lowered. (c : Config)
            → InSome lowered.set.graph lowered.groups.items c ↔ IsLoweredOf (Holds self.now) (reverse states.now) c) }
    {
        let own = self.own(alloc)?;
        let mut graph = own.graph;
        let under = bottom(&mut graph, states, false)?;
        let images = graph.lowered_each(under)?;
        let groups = image_groups(alloc, own.groups.as_slice(), images.as_slice())?;
        let set = Configs {
            graph,
            nodes: HashMap::new(alloc),
        };
        Ok(Lowered { set, groups })
    }
}
