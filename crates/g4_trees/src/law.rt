// What holds of every tree.
ghost use Rattle.std.specs.Prelude.{◌≡◌};
ghost use Rattle.g4_trees.specs.Trees.{Tree, items_of};

/// Trees with the same items are one tree.
pub fn one_tree()
    ensures { (t u : Tree) → items_of t ≡ items_of u → t ≡ u }
{}
