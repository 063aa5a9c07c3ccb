// A tree that grows in order of the text, node by node and token by token.
ghost use Rattle.std.specs.Prelude.{◌≡◌, [], OnOk, IfOk};
ghost use Rattle.g4_trees.specs.Trees.{Forest, items_of_all, leaf};
ghost use Rattle.g4_trees.specs.Growing.{Growing, nothing_grown, with_alternative, with_close, with_node, with_tree, with_wrap};
ghost use Rattle.g4_trees.specs.Kept.{HasGrown};

use crate::unwinding::put_in_place;
use crate::{Item, Tree};
use std::alloc::{AllocError, Global};

/// Where a node, as far as it was, became the first child of a new node: the place of its end among the items, and the
/// alternative that it had.
#[derive(Clone, Copy)]
pub struct Wrap {
    pub end: usize,
    pub alt: u32,
}

/// A tree that grows. Each step but the last takes the same time on average, however large the tree is.
#[derive(Drop)]
pub struct TreeBuilder {
    items: Vec<Item>,
    /// Where the open nodes begin among the items, newest last.
    enters: Vec<usize>,
    /// In order of their ends.
    wraps: Vec<Wrap>,
}

impl TreeBuilder {
    /// Nothing so far. No memory is taken.
    pub fn new(alloc: Global) -> Self
        ensures { HasGrown result nothing_grown }
    {
        TreeBuilder {
            items: Vec::new(alloc),
            enters: Vec::new(alloc),
            wraps: Vec::new(alloc),
        }
    }

    /// A node opens, with its rule, the number of its alternative and the place of the next token.
    ///
    /// # Errors
    /// No memory.
    pub fn open(&mut self, rule: u32, alt: u32, at: u32) -> Result<(), AllocError>
        ensures { OnOk result ((g : Growing) → HasGrown self.old g → HasGrown self.new (with_node rule alt at g)) }
    {
        self.enters.push(self.items.len())?;
        self.items.push(Item::Enter { rule, alt, at })?;
        Ok(())
    }

    /// A token, by its place in the token list, is the next child of the newest open node.
    ///
    /// # Errors
    /// No memory.
    pub fn token(&mut self, at: u32) -> Result<(), AllocError>
        ensures { OnOk result ((g : Growing) → HasGrown self.old g → HasGrown self.new (with_tree (leaf at) g)) }
    {
        self.items.push(Item::Token(at))?;
        Ok(())
    }

    /// The newest open node gets this alternative. Where none is open nothing happens.
    pub fn set_alternative(&mut self, alternative: u32)
        ensures { (g : Growing) → HasGrown self.old g → HasGrown self.new (with_alternative alternative g) }
    {
        let Some(enter) = self.enters.last() else {
            return;
        };
        let enter = *enter;
        if enter >= self.items.len() {
            return;
        }
        if let Item::Enter { rule, at, .. } = self.items[enter] {
            self.items[enter] = Item::Enter {
                rule,
                alt: alternative,
                at,
            };
        }
    }

    /// The newest open node, as far as it is, becomes the first child of a new node of the same rule and place, with this
    /// alternative. It is not moved. Where none is open nothing happens.
    ///
    /// # Errors
    /// No memory.
    pub fn wrap(&mut self, alternative: u32) -> Result<(), AllocError>
        ensures { OnOk result ((g : Growing) → HasGrown self.old g → HasGrown self.new (with_wrap alternative g)) }
    {
        let Some(enter) = self.enters.last() else {
            return Ok(());
        };
        let enter = *enter;
        let end = self.items.len();
        if enter >= end {
            return Ok(());
        }
        if let Item::Enter { rule, alt, at } = self.items[enter] {
            self.wraps.push(Wrap { end, alt })?;
            self.items.push(Item::Exit)?;
            self.items[enter] = Item::Enter {
                rule,
                alt: alternative,
                at,
            };
        }
        Ok(())
    }

    /// The newest open node closes. Where none is open nothing happens.
    ///
    /// # Errors
    /// No memory.
    pub fn close(&mut self) -> Result<(), AllocError>
        ensures { OnOk result ((g : Growing) → HasGrown self.old g → HasGrown self.new (with_close g)) }
    {
        let Some(_enter) = self.enters.pop() else {
            return Ok(());
        };
        self.items.push(Item::Exit)?;
        Ok(())
    }

    /// The tree that has grown, where no node is open. What became a first child is put in its place now, in time that is linear
    /// in the tree; where nothing did, no memory is taken.
    ///
    /// # Errors
    /// No memory.
    pub fn finish(self, alloc: Global) -> Result<Tree, AllocError>
        ensures { IfOk result (λ tree. (trees : Forest) → HasGrown self (record { nodes = []; trees = trees })
            → tree ≡ items_of_all trees) }
    {
        let TreeBuilder { items, wraps, .. } = self;
        if wraps.is_empty() {
            return Ok(Tree::new(items));
        }
        let items = put_in_place(alloc, items.as_slice(), wraps.as_slice())?;
        Ok(Tree::new(items))
    }
}
