// The set of a snapshot again.
ghost use Rattle.std.specs.Prelude.{◌≡◌, ◌≤◌, IfOk, length};
ghost use Rattle.g4_configs.specs.Configs.{Holds};
ghost use Rattle.g4_configs.specs.Rows.{groups_of};
ghost use Rattle.g4_net.specs.Configurations.{IsRow};

use crate::configs::Configs;
use crate::group::Group;
use crate::merging::add_each;
use crate::snapshot::Snapshot;
use g4_stacks::Graph;
use std::alloc::{AllocError, Global};
use std::collections::HashMap;

/// The groups of these states and alternatives with these sets of stacks, in turn.
fn grouped(alloc: Global, keys: &[(u32, u32)], stacks: &[u32]) -> Result<Vec<Group>, AllocError>
    requires { length keys.now ≤ length stacks.now }
    ensures { IfOk result (λ groups. groups.items ≡ groups_of keys.now stacks.now) }
{
    let mut groups = Vec::with_capacity(alloc, keys.len())?;
    for (k, key) in keys.iter().enumerate() {
        let (state, alternative) = *key;
        groups.push(Group {
            state,
            alternative,
            stacks: stacks[k],
        })?;
    }
    Ok(groups)
}

impl Snapshot {
    /// The set again: its snapshot is the same as this one. The time is that of the snapshot's size.
    ///
    /// # Errors
    /// No memory.
    pub fn load(&self, alloc: Global) -> Result<Configs, AllocError>
        ensures { IfOk result (λ set. IsRow self.now (Holds set)) }
    {
        let mut graph = Graph::new(alloc)?;
        let stacks = graph.load(&self.stacks)?;
        graph.is_canonical();
        let groups = grouped(alloc, &self.keys, stacks.as_slice())?;
        let mut nodes = HashMap::with_capacity(alloc, groups.len())?;
        add_each(&mut graph, &mut nodes, groups.as_slice())?;
        Ok(Configs { graph, nodes })
    }
}
