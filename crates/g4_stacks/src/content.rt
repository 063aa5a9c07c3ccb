// What a node of the graph holds.
ghost use Rattle.std.specs.Prelude.{IsTrue, ◌≡◌, ℕ, IfOk, MatchOption, Some, slice_get};
ghost use Rattle.g4_stacks.specs.Table.{IsOne, one_of};
ghost use Rattle.g4_stacks.specs.Canonical.{nothing, only_bottom, only_wildcard};

use std::alloc::{AllocError, Global};
use std::marker::Model;

/// Whether `$` alone and `#` alone are in a set, and for each state on top the node of the rests.
#[derive(Drop)]
pub struct NodeData {
    pub end: bool,
    pub wild: bool,
    pub tops: Vec<(u32, u32)>,
}

impl Model for NodeData {
    ghost use Rattle.g4_stacks.specs.Graph.{Content};

    ghost Value = { Content };

    ghost view = { λ d. record { end = d.end; wild = d.wild; tops = d.tops.items } };
}

impl NodeData {
    /// No stack.
    pub fn nothing(alloc: Global) -> Self
        ensures { result ≡ nothing }
    {
        NodeData {
            end: false,
            wild: false,
            tops: Vec::new(alloc),
        }
    }

    /// `$` alone.
    pub fn only_bottom(alloc: Global) -> Self
        ensures { result ≡ only_bottom }
    {
        NodeData {
            end: true,
            wild: false,
            tops: Vec::new(alloc),
        }
    }

    /// `#` alone.
    pub fn only_wildcard(alloc: Global) -> Self
        ensures { result ≡ only_wildcard }
    {
        NodeData {
            end: false,
            wild: true,
            tops: Vec::new(alloc),
        }
    }

    /// A state on the stacks of a node.
    pub fn one(alloc: Global, state: u32, node: u32) -> Result<Self, AllocError>
        ensures { IfOk result (λ d. d ≡ one_of state node) }
    {
        let mut tops = Vec::with_capacity(alloc, 1)?;
        tops.push((state, node))?;
        Ok(NodeData {
            end: false,
            wild: false,
            tops,
        })
    }

    /// The top of a content that has one and no mark.
    pub fn only_top(&self) -> Option<(u32, u32)>
        ensures { MatchOption result (IsOne self.now → ⊥) (λ p. self.now ≡ one_of p.0 p.1) }
    {
        if self.end {
            return None;
        }
        if self.wild {
            return None;
        }
        match self.tops.as_slice() {
            [top] => Some(*top),
            _ => None,
        }
    }

    /// Whether the state is on top, with this node of the rests.
    pub fn has_top(&self, state: u32, node: u32) -> bool
        ensures { IsTrue result → (i : ℕ) × (slice_get self.now.tops i ≡ Some (state, node)) }
    {
        let tops = self.tops.as_slice();
        let Ok(at) = tops.binary_search(&(state, node)) else {
            return false;
        };
        match tops.get(at) {
            Some(top) => top.0 == state && top.1 == node,
            None => false,
        }
    }

    /// A copy.
    pub fn copy(&self, alloc: Global) -> Result<Self, AllocError>
        ensures { IfOk result (λ d. d ≡ self.now) }
    {
        Ok(NodeData {
            end: self.end,
            wild: self.wild,
            tops: self.tops.as_slice().to_vec(alloc)?,
        })
    }
}
