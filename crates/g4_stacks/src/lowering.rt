// Stacks put in the place of the bottom of others.
ghost use Rattle.std.specs.Prelude.{◌≡◌, ◌≤◌, ◌↔◌, All, IfOk, length};
ghost use Rattle.g4_net.specs.Configurations.{Stack};
ghost use Rattle.g4_stacks.specs.Graph.{IsNode, Keeps, Has};
ghost use Rattle.g4_stacks.specs.Lowering.{AreLowered, IsAlone, IsLowered};
ghost use Rattle.g4_stacks.specs.Taking.{EachAlike};

use crate::graph::Graph;
use std::alloc::{AllocError, Global};

/// Some nodes of a graph in a graph of their own, in turn.
#[derive(Drop)]
pub struct Part {
    pub graph: Graph,
    pub nodes: Vec<u32>,
}

impl Graph {
    /// These nodes in a graph that has no others but those below them.
    pub fn part(&self, alloc: Global, roots: &[u32]) -> Result<Part, AllocError>
        requires { All (IsNode self.now) roots.now }
        ensures { IfOk result (λ part. EachAlike self.now roots.now part.graph part.nodes.items) }
    {
        self.is_canonical();
        let shape = self.canon(alloc, roots)?;
        let mut graph = Graph::new(alloc)?;
        let nodes = graph.load(&shape)?;
        graph.is_canonical();
        Ok(Part { graph, nodes })
    }

    /// The stacks in the place of the bottom, where the bottom alone is in the set; else no stack.
    fn lowered_bottom(&self, node: u32, under: u32) -> u32
        requires inside { IsNode self.now node }
        requires under { IsNode self.now under }
        ensures known { IsNode self.now result }
        ensures means { (s : Stack) → Has self.now result s ↔ IsAlone self.now node under s }
    {
        if self.has_end(node) {
            return under;
        }
        self.empty()
    }

    /// The stacks of the node above the bottom with those of another in the place of the bottom, where the images of the nodes
    /// before it are known.
    fn lowered_node(&mut self, node: u32, under: u32, images: &[u32]) -> Result<u32, AllocError>
        requires inside { IsNode self.old node }
        requires under { IsNode self.old under }
        requires images { AreLowered self.old under images.now }
        requires before { node ≤ length images.now }
        ensures keeps { Keeps self.old self.new }
        ensures known { IfOk result (λ n. IsNode self.new n) }
        ensures means { IfOk result (λ n. (s : Stack) → Has self.new n s ↔ IsLowered self.old node under s) }
    {
        self.is_canonical();
        let tops = self.tops(node).to_vec(self.alloc)?;
        let mut result = self.lowered_bottom(node, under);
        for entry in tops.as_slice() {
            let (top, below) = *entry;
            let image = self.push(images[below as usize], top)?;
            result = self.merge(result, image)?;
        }
        Ok(result)
    }

    /// For each of the first nodes, its stacks above the bottom with those of another node in the place of the bottom.
    fn lowered(&mut self, count: u32, under: u32) -> Result<Vec<u32>, AllocError>
        requires under { IsNode self.old under }
        requires count { count ≤ length self.old }
        ensures keeps { Keeps self.old self.new }
        ensures images { IfOk result (λ images. AreLowered self.new under images.items) }
        ensures all { IfOk result (λ images. length images.items ≡ count) }
    {
        let mut images = Vec::new(self.alloc);
        for n in 0..count {
            let image = self.lowered_node(n, under, images.as_slice())?;
            images.push(image)?;
        }
        Ok(images)
    }

    /// For each node, its stacks above the bottom with those of a node in the place of the bottom.
    pub fn lowered_each(&mut self, under: u32) -> Result<Vec<u32>, AllocError>
        requires { IsNode self.old under }
        ensures keeps { Keeps self.old self.new }
        ensures images { IfOk result (λ images. AreLowered self.new under images.items) }
        ensures all { IfOk result (λ images. length images.items ≡ length self.old) }
    {
        let Ok(count) = u32::try_from(self.contents().len()) else {
            return Err(AllocError);
        };
        let images = self.lowered(count, under)?;
        Ok(images)
    }
}
