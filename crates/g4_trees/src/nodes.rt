// The nodes of a tree and their places.
ghost use Rattle.std.specs.Prelude.{◌≡◌, ◌<◌, ◌^◌, IfOk, length};
ghost use Rattle.g4_trees.specs.Nodes.{nodes_of, place_of};

use crate::{Item, Tree};
use g4_base::Place;
use g4_tokens::Token;
use std::alloc::{AllocError, Global};

/// The places of the items that begin a node.
fn nodes_among(alloc: Global, items: &[Item]) -> Result<Vec<u32>, AllocError>
    requires { length items.now < 2 ^ 32 }
    ensures { IfOk result (λ v. v.items ≡ nodes_of items.now) }
{
    let mut nodes = Vec::new(alloc);
    for (place, item) in items.iter().enumerate() {
        if item.is_enter() {
            nodes.push(place as u32)?;
        }
    }
    Ok(nodes)
}

impl Tree {
    /// The numbers of the nodes, a parent before its children. The number of a node is the place of its beginning among the
    /// items.
    ///
    /// # Errors
    /// No memory.
    pub fn nodes(&self, alloc: Global) -> Result<Vec<u32>, AllocError>
        requires { length self.now < 2 ^ 32 }
        ensures { IfOk result (λ v. v.items ≡ nodes_of self.now) }
    {
        nodes_among(alloc, self.items())
    }

    /// The place of the node of this number in the text, which is that of the next token when the node began. There is none
    /// where no node has this number, or where the list does not have the token.
    pub fn place(&self, node: u32, tokens: &[Token]) -> Option<Place>
        ensures { result ≡ place_of tokens.now self.now node }
    {
        let Some(Item::Enter { at, .. }) = self.items().get(node as usize) else {
            return None;
        };
        match tokens.get(*at as usize) {
            Some(token) => Some(token.place),
            None => None,
        }
    }
}
