// A tree, as a flat list.
ghost use Rattle.std.specs.Prelude.{◌≡◌};

use std::marker::Model;

/// An item of a flat tree.
#[derive(Clone, Copy, Debug, PartialEq, Eq)]
pub enum Item {
    /// A node begins: its rule, the number of its alternative as the grammar writes it, and the place of the next
    /// token in the token list.
    Enter { rule: u32, alt: u32, at: u32 },
    /// A token, by its place in the token list.
    Token(u32),
    /// The newest open node ends.
    Exit,
}

impl Item {
    ghost use Rattle.g4_trees.specs.Pieces.{is_enter};

    /// Whether a node begins here.
    pub(crate) fn is_enter(self) -> bool
        ensures { result ≡ is_enter self }
    {
        match self {
            Item::Enter { .. } => true,
            Item::Token(_) => false,
            Item::Exit => false,
        }
    }
}

/// A tree: its nodes and tokens in order, which contracts see as the list of its items.
#[derive(Drop)]
pub struct Tree {
    items: Vec<Item>,
}

impl Model for Tree {
    ghost use Rattle.std.specs.Prelude.{List};
    ghost use Rattle.g4_trees.specs.declared.tree.Item.{Item as TreeItem};

    ghost Value = { List TreeItem };

    ghost view = { λ t. t.items.items };
}

impl Tree {
    /// The tree of these items.
    pub fn new(items: Vec<Item>) -> Self
        ensures { result ≡ items.items }
    {
        Tree { items }
    }

    /// The items in place.
    pub fn items(&self) -> &[Item]
        ensures { result.now ≡ self.now }
    {
        self.items.as_slice()
    }
}
