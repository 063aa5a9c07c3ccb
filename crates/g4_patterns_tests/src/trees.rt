// Trees that are built one after another.
ghost use Rattle.std.specs.Prelude.{IfOk};
ghost use Rattle.g4_patterns.specs.Places.{AreOneTree};

use g4_trees::{Item, Tree};
use std::alloc::{AllocError, Global};
use std::marker::Model;

/// Trees one after another: their items.
#[derive(Drop)]
pub(crate) struct Trees {
    items: Vec<Item>,
}

impl Model for Trees {
    ghost use Rattle.std.specs.Prelude.{◌≡◌, List};
    ghost use Rattle.g4_trees.specs.declared.tree.Item.{Item};
    ghost use Rattle.g4_trees.specs.Trees.{Forest, items_of_all};

    ghost Value = { List Item };

    ghost view = { λ t. t.items.items };

    ghost invariant = { λ t. (trees : Forest) × (t.items.items ≡ items_of_all trees) };
}

impl Trees {
    /// No tree.
    pub(crate) fn new(alloc: Global) -> Self {
        Trees {
            items: Vec::new(alloc),
        }
    }

    /// These trees and a token.
    ///
    /// # Errors
    /// No memory.
    pub(crate) fn with_token(self, at: u32) -> Result<Self, AllocError> {
        let Trees { mut items } = self;
        items.push(Item::Token(at))?;
        Ok(Trees { items })
    }

    /// These trees and a node with children.
    ///
    /// # Errors
    /// No memory.
    pub(crate) fn with_node(
        self,
        rule: u32,
        alt: u32,
        at: u32,
        children: &Trees,
    ) -> Result<Self, AllocError> {
        let Trees { mut items } = self;
        items.push(Item::Enter { rule, alt, at })?;
        items.extend_from_slice(children.items.as_slice())?;
        items.push(Item::Exit)?;
        Ok(Trees { items })
    }

    /// A node with these children.
    ///
    /// # Errors
    /// No memory.
    pub(crate) fn into_node(
        self,
        alloc: Global,
        rule: u32,
        alt: u32,
        at: u32,
    ) -> Result<Tree, AllocError>
        ensures { IfOk result AreOneTree }
    {
        let mut items = Vec::new(alloc);
        items.push(Item::Enter { rule, alt, at })?;
        items.extend_from_slice(self.items.as_slice())?;
        items.push(Item::Exit)?;
        Ok(Tree::new(items))
    }
}
