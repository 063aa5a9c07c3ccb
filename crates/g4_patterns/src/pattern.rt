// A pattern: a tree whose tokens may be tags.
ghost use Rattle.std.specs.Prelude.{◌≡◌};
ghost use Rattle.g4_patterns.specs.Places.{AreOneTree};

use crate::token::PatternToken;
use g4_base::Sequence;
use g4_trees::Tree;
use std::marker::Model;

/// A pattern: a tree, and the tokens that its leaves name by their places. The numbers of alternatives and the places of nodes in
/// the tree have no meaning. A leaf whose place has no token matches nothing. Contracts see the items of the tree and the list of the
/// tokens.
#[derive(Drop)]
pub struct Pattern {
    tree: Tree,
    tokens: Sequence<PatternToken>,
}

impl Model for Pattern {
    ghost use Rattle.std.specs.Prelude.{List};
    ghost use Rattle.g4_trees.specs.declared.tree.Item.{Item};
    ghost use Rattle.g4_patterns.specs.Places.{AreOneTree};
    ghost use Rattle.g4_patterns.specs.declared.token.PatternToken.{PatternToken};

    ghost Value = { List Item × List PatternToken };

    ghost view = { λ p. (p.tree, p.tokens) };

    ghost invariant = { λ p. AreOneTree p.tree };
}

impl Pattern {
    /// The pattern of this tree and these tokens.
    pub fn new(tree: Tree, tokens: Sequence<PatternToken>) -> Self
        requires { AreOneTree tree }
        ensures { result ≡ (tree, tokens) }
    {
        Pattern { tree, tokens }
    }

    /// The tree in place.
    pub fn tree(&self) -> &Tree
        ensures tree { result.now ≡ self.now.0 }
        ensures nested { AreOneTree self.now.0 }
    {
        &self.tree
    }

    /// The tokens in place.
    pub fn tokens(&self) -> &[PatternToken]
        ensures { result.now ≡ self.now.1 }
    {
        self.tokens.as_slice()
    }
}
