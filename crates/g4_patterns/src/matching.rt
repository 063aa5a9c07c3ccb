// Where a pattern matches, and what its tags are bound to there.
ghost use Rattle.std.specs.Prelude.{◌≡◌, ◌<◌, ◌^◌, [], ◌∷◌, ◌++◌, IfOk, OnOk, cond, false, length, slice_get};
ghost use Rattle.g4_patterns.specs.Matching.{AreBindings, AreMatches};
ghost use Rattle.g4_patterns.specs.Walking.{all_found, begins_node, bindings_of, name_of as tag_name, starting, walk};

use crate::binding::{Binding, Bindings};
use crate::ground::Ground;
use crate::pattern::Pattern;
use crate::stand::Stand;
use crate::subject::Subject;
use crate::token::PatternToken;
use g4_base::{Octets, Sequence};
use g4_trees::Item;
use std::alloc::{AllocError, Global};

/// Nothing has been found yet, and the first item is looked for at this place.
fn start(node: u32) -> Stand
    ensures { result ≡ starting node }
{
    Stand {
        at: node as usize,
        opened: None,
    }
}

/// Whether all items of a pattern with these tokens are found from this place on. No memory is taken.
fn is_found(ground: &Ground<'_>, tokens: &[PatternToken], items: &[Item], node: u32) -> bool
    requires { length ground.now.items.now < 2 ^ 32 }
    ensures { result
        ≡ all_found (walk ground.now.items.now ground.now.lasts.now ground.now.tokens.now tokens.now (starting node) items.now) }
{
    let mut stand = start(node);
    for item in items {
        let Some(step) = ground.step(tokens, stand, *item) else {
            return false;
        };
        stand = step.next;
    }
    true
}

/// Whether a node begins at this place from which on all items of a pattern with these tokens are found.
fn is_match(ground: &Ground<'_>, tokens: &[PatternToken], items: &[Item], node: u32) -> bool
    requires { length ground.now.items.now < 2 ^ 32 }
    ensures { result ≡ cond (begins_node (slice_get ground.now.items.now node))
        (all_found (walk ground.now.items.now ground.now.lasts.now ground.now.tokens.now tokens.now (starting node) items.now)) false }
{
    ground.is_node(node) && is_found(ground, tokens, items, node)
}

/// The name of the tag that an item of a pattern with these tokens is, empty where it is none.
fn name_of<'a>(tokens: &'a [PatternToken], item: Item) -> &'a [u8]
    ensures { result.now ≡ tag_name tokens.now item }
{
    let Item::Token(place) = item else {
        return b"";
    };
    match tokens.get(place as usize) {
        Some(PatternToken::TokenTag { name, .. }) => name.as_slice(),
        Some(PatternToken::RuleTag { name, .. }) => name.as_slice(),
        _ => b"",
    }
}

/// Adds what an item of a pattern with these tokens is bound to.
fn push_binding(
    alloc: Global,
    bindings: &mut Vec<Binding>,
    tokens: &[PatternToken],
    item: Item,
    bound: Option<u32>,
) -> Result<(), AllocError>
    ensures { OnOk result (bindings.new.items ≡ bindings.old.items ++ bindings_of tokens.now item bound) }
{
    if let Some(node) = bound {
        let name = name_of(tokens, item).to_vec(alloc)?;
        bindings.push(Binding {
            name: Octets::new(name),
            node,
        })?;
    }
    Ok(())
}

/// What the tags among the items of a pattern with these tokens are bound to, where all items are found from this place on.
fn bindings_at(
    alloc: Global,
    ground: &Ground<'_>,
    tokens: &[PatternToken],
    items: &[Item],
    node: u32,
) -> Result<Option<Bindings>, AllocError>
    requires { length ground.now.items.now < 2 ^ 32 }
    ensures { IfOk result (λ bindings. bindings
        ≡ walk ground.now.items.now ground.now.lasts.now ground.now.tokens.now tokens.now (starting node) items.now) }
{
    let mut bindings = Vec::new(alloc);
    let mut stand = start(node);
    for item in items {
        let Some(step) = ground.step(tokens, stand, *item) else {
            return Ok(None);
        };
        push_binding(alloc, &mut bindings, tokens, *item, step.bound)?;
        stand = step.next;
    }
    Ok(Some(Sequence::new(bindings)))
}

/// Adds a place at which a pattern matches.
fn push_if(found: &mut Vec<u32>, place: u32, is_match: bool) -> Result<(), AllocError>
    ensures { OnOk result (found.new.items ≡ cond is_match (found.old.items ++ place ∷ []) found.old.items) }
{
    if is_match {
        found.push(place)?;
    }
    Ok(())
}

impl Pattern {
    /// What the tags of the pattern are bound to where it matches at this node, in the order of the pattern; none where it does not
    /// match, or where no node has this number. The number of a node is the place of its first item. No more is compared than the
    /// smaller of both trees.
    ///
    /// # Errors
    /// No memory.
    pub fn matches(
        &self,
        alloc: Global,
        subject: &Subject<'_>,
        node: u32,
    ) -> Result<Option<Bindings>, AllocError>
        ensures { IfOk result (AreBindings self.now.0 self.now.1 subject.now.0 subject.now.1 node) }
    {
        let ground = subject.ground();
        if !ground.is_node(node) {
            return Ok(None);
        }
        let items = self.tree().items();
        let tokens = self.tokens();
        let bindings = bindings_at(alloc, &ground, tokens, items, node)?;
        Ok(bindings)
    }

    /// The numbers of the nodes at which the pattern matches, in preorder. At each node no more is compared than the smaller of both
    /// trees, so the time is linear in the tree where the pattern is small.
    ///
    /// # Errors
    /// No memory.
    pub fn find_all(
        &self,
        alloc: Global,
        subject: &Subject<'_>,
    ) -> Result<Sequence<u32>, AllocError>
        ensures { IfOk result (AreMatches self.now.0 self.now.1 subject.now.0 subject.now.1) }
    {
        let ground = subject.ground();
        let tokens = self.tokens();
        let items = self.tree().items();
        let count = ground.items.len() as u32;
        let mut found = Vec::new(alloc);
        for place in 0..count {
            let here = is_match(&ground, tokens, items, place);
            push_if(&mut found, place, here)?;
        }
        Ok(Sequence::new(found))
    }
}
