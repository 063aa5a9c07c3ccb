// The items of a grown tree, with each node that became a first child put in its place.
ghost use Rattle.std.specs.Prelude.{◌≡◌, ◌++◌, length, reverse, IfOk, OnOk, Some, None, ◌-◌};
ghost use Rattle.g4_trees.specs.Kept.{AreOrdered, entries_from, kept, wrap};
ghost use Rattle.g4_trees.specs.Unwinding.{Known, known, known_before, enters, HasUnwound};
ghost use Rattle.g4_trees.specs.Ends.{IsWrapAt};

use crate::Item;
use crate::builder::Wrap;
use std::alloc::{AllocError, Global};

/// What is known of a grown tree from some place on, when it is read from its last entry back to there.
#[derive(Drop)]
struct Unwound {
    /// For each node that ends from the place on and begins before it, newest last: the alternatives of the nodes that became
    /// first children, the innermost last.
    pending: Vec<Vec<u32>>,
    /// The items from the place on, the last first.
    out: Vec<Item>,
}

/// Adds the beginnings of nodes with these alternatives, the last first.
fn push_enters(
    out: &mut Vec<Item>,
    rule: u32,
    at: u32,
    alternatives: &[u32],
) -> Result<(), AllocError>
    ensures { OnOk result (out.new.items ≡ out.old.items ++ reverse (enters rule at alternatives.now)) }
{
    for k in (0..alternatives.len()).rev() {
        out.push(Item::Enter {
            rule,
            alt: alternatives[k],
            at,
        })?;
    }
    Ok(())
}

impl Unwound {
    /// Reads an item.
    fn read(&mut self, alloc: Global, item: Item) -> Result<(), AllocError>
        ensures { OnOk result ((k : Known) → HasUnwound self.old k → HasUnwound self.new (known_before (kept item) k)) }
    {
        match item {
            Item::Enter { rule, at, .. } => {
                if let Some(alternatives) = self.pending.pop() {
                    push_enters(&mut self.out, rule, at, alternatives.as_slice())?;
                }
            }
            Item::Token(_) => {}
            Item::Exit => self.pending.push(Vec::new(alloc))?,
        }
        self.out.push(item)?;
        Ok(())
    }

    /// Reads the end of a node that became a first child.
    fn read_wrap(&mut self, alt: u32) -> Result<(), AllocError>
        ensures { OnOk result ((k : Known) → HasUnwound self.old k → HasUnwound self.new (known_before (wrap alt) k)) }
    {
        if let Some(mut alternatives) = self.pending.pop() {
            alternatives.push(alt)?;
            self.pending.push(alternatives)?;
        }
        self.out.push(Item::Exit)?;
        Ok(())
    }
}

/// The alternative of the last of the wraps, where its end is at this place.
fn wrap_at(wraps: &[Wrap], place: usize) -> Option<u32>
    ensures { IsWrapAt wraps.now place result }
{
    match wraps.last() {
        Some(wrap) if wrap.end == place => Some(wrap.alt),
        _ => None,
    }
}

/// The items of a grown tree.
pub fn put_in_place(alloc: Global, items: &[Item], wraps: &[Wrap]) -> Result<Vec<Item>, AllocError>
    ensures { AreOrdered 0 wraps.now (length items.now) → IfOk result (λ v. v.items ≡ (known (entries_from 0 items.now wraps.now)).out) }
{
    let mut unwound = Unwound {
        pending: Vec::new(alloc),
        out: Vec::new(alloc),
    };
    let mut rest = wraps.len();
    for place in (0..items.len()).rev() {
        match wrap_at(&wraps[..rest], place) {
            Some(alt) => {
                unwound.read_wrap(alt)?;
                rest -= 1;
            }
            None => unwound.read(alloc, items[place])?,
        }
    }
    let mut out = unwound.out;
    out.reverse();
    Ok(out)
}
