// The text of a node of a tree.
ghost use Rattle.std.specs.Prelude.{◌≡◌, ◌<◌, ◌≤◌, ◌+◌, ◌-◌, [], length, take, drop};
ghost use Rattle.g4_trees.specs.Appending.{Adds};
ghost use Rattle.g4_trees.specs.TreeText.{text_of};
ghost use Rattle.g4_trees.specs.Trees.{Tree as Nested, items_of};
ghost use Rattle.g4_patterns.specs.Lasts.{IsIndexed};
ghost use Rattle.g4_patterns.specs.Places.{IsTreeAt};

use crate::ground::Ground;
use crate::subject::Subject;
use g4_source::ParserRule;
use g4_trees::{Item, Tree};
use std::alloc::{AllocError, Global};

/// The items from one place to another, with both.
fn part(items: &[Item], first: usize, last: usize) -> &[Item]
    ensures { first ≤ last → last < length items.now → result.now ≡ take (last + 1 - first) (drop first items.now) }
{
    if last < first {
        return &[];
    }
    if last >= items.len() {
        return &[];
    }
    &items[first..last + 1]
}

/// The items of the tree that begins at this place, none where no tree begins there.
fn items_at<'a>(ground: &Ground<'a>, node: u32) -> &'a [Item]
    requires { IsIndexed ground.now.items.now ground.now.lasts.now }
    ensures tree { (t : Nested) → IsTreeAt ground.now.items.now node t → result.now ≡ items_of t }
    ensures none { ((t : Nested) → IsTreeAt ground.now.items.now node t → ⊥) → result.now ≡ [] }
{
    if !ground.is_tree(node) {
        return &[];
    }
    match ground.last_at(node) {
        Some(last) => part(ground.items, node as usize, last as usize),
        None => &[],
    }
}

impl Subject<'_> {
    /// Adds the text of the node or token at this place, as `Tree::print` writes it, and nothing where none begins there.
    ///
    /// # Errors
    /// No memory. A front part may be added then.
    pub fn print_node<A>(
        &self,
        alloc: Global,
        out: &mut Vec<u8>,
        rules: &[ParserRule<A>],
        node: u32,
    ) -> Result<(), AllocError>
        ensures tree { (t : Nested) → IsTreeAt self.now.0 node t
            → Adds (text_of rules.now self.now.1 t) out.old.items out.new.items result }
        ensures none { ((t : Nested) → IsTreeAt self.now.0 node t → ⊥) → out.new.items ≡ out.old.items }
    {
        let ground = self.ground();
        let items = items_at(&ground, node);
        if items.is_empty() {
            return Ok(());
        }
        let copy = items.to_vec(alloc)?;
        let tree = Tree::new(copy);
        tree.print(out, rules, ground.tokens)
    }
}
