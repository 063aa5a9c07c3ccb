// Where the trees among some items end.
ghost use Rattle.std.specs.Prelude.{◌≡◌, ◌<◌, ◌^◌, IfOk, OnOk, List, ℕ, length, reverse, slice_get, Some, ◌∷◌};
ghost use Rattle.g4_patterns.specs.Lasts.{AreLasts, Read, read_before};

use g4_trees::Item;
use std::alloc::{AllocError, Global};

/// The last place of the tree that begins with this item, which has this place. The places of the ends of nodes that began before it are
/// `open_ends`, the innermost last.
fn last_of(open_ends: &mut Vec<u32>, place: u32, item: Item) -> Result<u32, AllocError>
    ensures open { (lasts : List ℕ) → OnOk result (reverse open_ends.new.items
        ≡ (read_before place item (record { open_ends = reverse open_ends.old.items; lasts = lasts })).open_ends) }
    ensures last { (lasts : List ℕ) → IfOk result (λ last. last ∷ lasts
        ≡ (read_before place item (record { open_ends = reverse open_ends.old.items; lasts = lasts })).lasts) }
{
    match item {
        Item::Enter { .. } => Ok(open_ends.pop().unwrap_or(place)),
        Item::Token(_) => Ok(place),
        Item::Exit => {
            open_ends.push(place)?;
            Ok(place)
        }
    }
}

/// For the place of each tree among the items that of its last item.
pub(crate) fn lasts_of(alloc: Global, items: &[Item]) -> Result<Vec<u32>, AllocError>
    requires { length items.now < 2 ^ 32 }
    ensures { IfOk result (λ v. AreLasts items.now v.items) }
{
    let mut open_ends = Vec::new(alloc);
    let mut lasts = Vec::new(alloc);
    for place in (0..items.len()).rev() {
        let last = last_of(&mut open_ends, place as u32, items[place])?;
        lasts.push(last)?;
    }
    lasts.reverse();
    Ok(lasts)
}
