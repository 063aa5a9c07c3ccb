// A tree that is searched for patterns, with its tokens.
ghost use Rattle.std.specs.Prelude.{◌≡◌, IfOk};
ghost use Rattle.g4_patterns.specs.Lasts.{IsIndexed};
ghost use Rattle.g4_patterns.specs.Places.{AreOneTree};

use crate::ground::Ground;
use crate::lasts::lasts_of;
use g4_tokens::Tokens;
use g4_trees::Tree;
use std::alloc::{AllocError, Global};
use std::marker::Model;

/// A tree that is searched for patterns, and the tokens that it is over. For each node it is known where it ends, so a node is
/// passed over in one step however large it is. Contracts see the items of the tree and the tokens.
#[derive(Drop)]
pub struct Subject<'a> {
    tree: &'a Tree,
    tokens: &'a Tokens,
    /// For the place of each node or token that of its last item.
    lasts: Vec<u32>,
}

impl<'a> Model for Subject<'a> {
    ghost use Rattle.std.specs.Prelude.{List};
    ghost use Rattle.g4_tokens.specs.declared.token.Tokens.{Tokens};
    ghost use Rattle.g4_trees.specs.declared.tree.Item.{Item};
    ghost use Rattle.g4_patterns.specs.Lasts.{IsIndexed};

    ghost Value = { List Item × Tokens };

    ghost view = { λ s. (s.tree.now, s.tokens.now) };

    ghost invariant = { λ s. IsIndexed s.tree.now s.lasts.items };
}

impl<'a> Subject<'a> {
    /// This tree over these tokens. The time is linear in the tree.
    ///
    /// # Errors
    /// No memory, also where the tree has more items than numbers of 32 bits.
    pub fn new(alloc: Global, tree: &'a Tree, tokens: &'a Tokens) -> Result<Self, AllocError>
        requires { AreOneTree tree.now }
        ensures { IfOk result (λ s. s ≡ (tree.now, tokens.now)) }
    {
        let items = tree.items();
        if items.len() > u32::MAX as usize {
            return Err(AllocError);
        }
        let lasts = lasts_of(alloc, items)?;
        Ok(Subject {
            tree,
            tokens,
            lasts,
        })
    }

    /// What a pattern is looked for in.
    pub(crate) fn ground(&self) -> Ground<'_>
        ensures items { result.items.now ≡ self.now.0 }
        ensures tokens { result.tokens.now ≡ self.now.1 }
        ensures indexed { IsIndexed self.now.0 result.lasts.now }
    {
        Ground {
            items: self.tree.items(),
            lasts: self.lasts.as_slice(),
            tokens: self.tokens,
        }
    }
}
