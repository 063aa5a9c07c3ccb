// A set of configurations apart from its graph.
ghost use Rattle.std.specs.Prelude.{◌≡◌, ◌↔◌, IsTrue, IfOk};
ghost use Rattle.g4_configs.specs.Configs.{Holds};
ghost use Rattle.g4_net.specs.Configurations.{IsRow};

mod hash;
mod loading;

use crate::configs::Configs;
use crate::ordered::{in_order, keys_in, nodes_in};
use g4_stacks::Shape;
use std::alloc::{AllocError, Global};
use std::marker::Model;

/// The configurations of a set, in order and apart from its graph, to be compared and kept.
#[derive(Drop)]
pub struct Snapshot {
    keys: Vec<(u32, u32)>,
    stacks: Shape,
}

impl Model for Snapshot {
    ghost use Rattle.std.specs.Prelude.{List};
    ghost use Rattle.g4_configs.specs.Rows.{IsParted, row_of};
    ghost use Rattle.g4_net.specs.Configurations.{Config};

    ghost Value = { List Config };

    ghost view = { λ s. row_of s.keys.items s.stacks };

    ghost invariant = { λ s. IsParted s.keys.items s.stacks };
}

impl Snapshot {
    /// Whether they are of the same set.
    pub fn same(&self, other: &Snapshot) -> bool
        ensures { IsTrue result ↔ (self.now ≡ other.now) }
    {
        if !same_keys(&self.keys, &other.keys) {
            return false;
        }
        self.stacks.same(&other.stacks)
    }
}

impl Configs {
    /// The set as it is now.
    pub fn snapshot(&self, alloc: Global) -> Result<Snapshot, AllocError>
        ensures { IfOk result (λ row. IsRow row (Holds self.now)) }
    {
        self.graph.is_canonical();
        let entries = in_order(alloc, &self.nodes)?;
        let keys = keys_in(alloc, &entries)?;
        let nodes = nodes_in(alloc, &entries)?;
        let stacks = self.graph.canon(alloc, &nodes)?;
        Ok(Snapshot { keys, stacks })
    }
}

/// Whether the keys are the same.
fn same_keys(left: &[(u32, u32)], right: &[(u32, u32)]) -> bool
    ensures { IsTrue result ↔ (left.now ≡ right.now) }
{
    left == right
}
