// The rows, found by their contents.
ghost use Rattle.std.specs.Prelude.{◌≡◌, ◌<◌, ◌≤◌, ◌%◌, [], ◌++◌, ◌∷◌, length, IfOk, IfSome, IfNone, vec_len, vec_capacity};
ghost use mathlib.Core.Option.{some};
ghost use lib.ListN.{get_elem?};
ghost use Rattle.g4_store.specs.Buckets.{AreLinked};
ghost use Rattle.g4_store.specs.Paths.{InRows};

use crate::automaton::Content;
use std::alloc::{AllocError, Global};
use std::marker::Model;

/// The rows in the order in which they were made, and how many there may be. All memory is taken at the start.
#[derive(Drop)]
pub struct Rows<C: Content + Drop> {
    pub(crate) contents: Vec<C>,
    pub(crate) most: usize,
    /// For each bucket the newest row of it.
    newest: Vec<u32>,
    /// For each row the one of its bucket that was made before it.
    older: Vec<u32>,
}

impl<C: Content + Drop> Model for Rows<C> {
    ghost use Rattle.std.specs.Prelude.{◌≡◌, ◌≤◌, List, ℕ, length, vec_capacity};
    ghost use Rattle.g4_store.specs.Buckets.{AreLinked};

    ghost Value = { List C × ℕ };

    ghost view = { λ r. (r.contents.items, r.most) };

    ghost invariant = { λ r. (AreLinked C.code r.contents.items r.newest.items r.older.items × (length r.contents.items ≤ r.most))
        × ((r.most ≤ 65536) × (r.most ≤ vec_capacity r.contents) × (r.most ≤ vec_capacity r.older)) };
}

/// The bucket of a hash.
fn bucket_of(code: u64, newest: &[u32]) -> usize
    requires { 0 < length newest.now }
    ensures { (result ≡ code % length newest.now) × (result < length newest.now) }
{
    (code % newest.len() as u64) as usize
}

/// Pushes where there is room.
fn push_in_room<T: Drop>(items: &mut Vec<T>, item: T)
    requires { vec_len items.old < vec_capacity items.old }
    ensures { (items.new.items ≡ items.old.items ++ item ∷ []) × (vec_capacity items.old ≤ vec_capacity items.new) }
{
    let Ok(()) = items.push(item) else {
        unreachable!()
    };
}

/// The row with this content, from a link of its bucket on.
fn find_from<C: Content>(
    rows: &[C],
    newest: &[u32],
    older: &[u32],
    bucket: usize,
    content: &C,
) -> Option<usize>
    requires linked { AreLinked C.code rows.now newest.now older.now }
    requires bucket { (bucket ≡ C.code content.now % length newest.now) × (bucket < length newest.now) }
    ensures some { IfSome result (λ t. get_elem? rows.now t ≡ some content.now) }
    ensures within { IfSome result (λ t. t < length rows.now) }
    ensures none { IfNone result (InRows rows.now content.now → ⊥) }
{
    let mut link = newest[bucket];
    while link > 0 {
        let row = link as usize - 1;
        if rows[row].same(content) {
            return Some(row);
        }
        link = older[row];
    }
    None
}

/// A copy of the content at a place.
fn copy_at<C: Content>(alloc: Global, rows: &[C], row: usize) -> Result<C, AllocError>
    requires { (x : C) × (get_elem? rows.now row ≡ some x) }
    ensures { (x : C) → get_elem? rows.now row ≡ some x → IfOk result (λ made. made ≡ x) }
{
    let made = rows[row].copy(alloc)?;
    Ok(made)
}

impl<C: Content + Drop> Rows<C> {
    /// No rows, with room for so many.
    ///
    /// # Errors
    /// No memory.
    pub fn with_room(alloc: Global, most: usize) -> Result<Rows<C>, AllocError>
        requires { most ≤ 65536 }
        ensures { IfOk result (λ rows. rows ≡ ([], most)) }
    {
        Ok(Rows {
            contents: Vec::with_capacity(alloc, most)?,
            most,
            newest: vec![in alloc; 0u32; most + 1]?,
            older: Vec::with_capacity(alloc, most)?,
        })
    }

    /// The contents in order.
    pub fn into_contents(self) -> Vec<C>
        ensures { result.items ≡ self.0 }
    {
        self.contents
    }

    /// How many rows there are.
    pub fn len(&self) -> usize
        ensures { (result ≡ length self.now.0) × (result ≤ self.now.1) × (self.now.1 ≤ 65536) }
    {
        self.contents.len()
    }

    /// The number of the row with this content. The time is that of the rows of one bucket.
    pub fn find(&self, content: &C) -> Option<usize>
        ensures some { IfSome result (λ t. get_elem? self.now.0 t ≡ some content.now) }
        ensures within { IfSome result (λ t. t < self.now.1) }
        ensures none { IfNone result (InRows self.now.0 content.now → ⊥) }
    {
        let bucket = bucket_of(content.hash(), self.newest.as_slice());
        find_from(
            self.contents.as_slice(),
            self.newest.as_slice(),
            self.older.as_slice(),
            bucket,
            content,
        )
    }

    /// A copy of the content of a row.
    ///
    /// # Errors
    /// No memory.
    pub fn copy(&self, alloc: Global, row: usize) -> Result<C, AllocError>
        requires { (x : C) × (get_elem? self.now.0 row ≡ some x) }
        ensures { (x : C) → get_elem? self.now.0 row ≡ some x → IfOk result (λ made. made ≡ x) }
    {
        let made = copy_at(alloc, self.contents.as_slice(), row)?;
        Ok(made)
    }

    /// Makes a row, where there is room.
    pub fn push(&mut self, content: C)
        requires { length self.old.0 < self.old.1 }
        ensures { self.new ≡ (self.old.0 ++ content ∷ [], self.old.1) }
    {
        let row = self.len();
        let bucket = bucket_of(content.hash(), self.newest.as_slice());
        push_in_room(&mut self.older, self.newest[bucket]);
        self.newest[bucket] = row as u32 + 1;
        push_in_room(&mut self.contents, content);
    }
}
