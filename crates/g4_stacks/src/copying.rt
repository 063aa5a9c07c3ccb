// A copy of some nodes of a graph: lower nodes first, in the order of the states, so that equal sets give equal copies.
ghost use Rattle.std.specs.Prelude.{◌≡◌, IfOk, OnOk, slice_get};
ghost use Rattle.g4_stacks.specs.Graph.{IsNode};
ghost use Rattle.g4_stacks.specs.Merge.{tops_of};
ghost use Rattle.g4_stacks.specs.Taking.{Takes, IsKnown};

use crate::content::NodeData;
use crate::graph::Graph;
use std::alloc::{AllocError, Global};
use std::collections::BTreeMap;

/// A new graph, and the numbers in it of the nodes that it took over.
#[derive(Drop)]
pub(crate) struct Copying {
    pub graph: Graph,
    pub known: BTreeMap<u32, u32>,
    pub alloc: Global,
}

/// A node whose tops before this state are taken over, and that waits for the node below the state.
#[derive(Drop)]
pub(crate) struct Frame {
    pub node: u32,
    pub tops: Vec<(u32, u32)>,
    pub state: u32,
}

impl Copying {
    /// Takes over one node, and those below it first.
    pub(crate) fn take(&mut self, source: &Graph, root: u32) -> Result<u32, AllocError>
        requires inside { IsNode source.now root }
        requires known { IsKnown source.now self.old.graph self.old.known }
        ensures known { OnOk result (IsKnown source.now self.new.graph self.new.known) }
        ensures takes { IfOk result (λ r. Takes source.now root self.old.graph self.new.graph r) }
    {
        source.is_canonical();
        self.graph.is_canonical();
        let mut waiting = Vec::new(self.alloc);
        let mut node = root;
        let mut tops = Vec::new(self.alloc);
        'walk: loop {
            if let Some((state, below)) = next_top(source, node, tops.len()) {
                let found = self.known.get(&below).copied();
                if let Some(result) = found {
                    tops.push((state, result))?;
                    continue;
                }
                waiting.push(Frame { node, tops, state })?;
                node = below;
                tops = Vec::new(self.alloc);
                continue;
            }
            let held = &source.contents()[node as usize];
            let result = self.graph.intern(NodeData {
                end: held.end,
                wild: held.wild,
                tops,
            })?;
            self.known.insert(node, result)?;
            let Some(frame) = waiting.pop() else {
                return Ok(result);
            };
            node = frame.node;
            tops = frame.tops;
            tops.push((frame.state, result))?;
        }
    }
}

/// The top of the node after the first ones.
fn next_top(source: &Graph, node: u32, done: usize) -> Option<(u32, u32)>
    requires { IsNode source.now node }
    ensures { result ≡ slice_get (tops_of source.now node) done }
{
    source.tops(node).get(done).copied()
}
