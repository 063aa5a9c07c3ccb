// Dealing the files.
ghost use Rattle.std.specs.Prelude.{◌≡◌, ◌≤◌, ◌<◌, ◌+◌, ◌-◌, ◌%◌, ◌++◌, ◌∷◌, [], ℕ, List, true, IfOk, replicate, length};
ghost use Rattle.g4_hands.specs.Dealing.{dealt};
ghost use Rattle.g4_hands.specs.Hands.{AreDealt};
ghost use Rattle.g4_hands.specs.Reaches.{DequeId};
ghost use Rattle.g4_hands.specs.Rows.{AreRows};
ghost use Rattle.g4_hands.specs.Shares.{all_parts, share};

use crate::hand::Hand;
use crate::pile::Pile;
use crate::row::{Row, share_out};
use std::alloc::{AllocError, Global};

/// The most files of a deal.
pub const MOST_FILES: u32 = 4_096;

/// The most hands of a deal.
pub const MOST_JOBS: u32 = 64;

/// The deque of one of so many hands.
fn dealt_pile(alloc: Global, files: u32, jobs: u32, hand: u32) -> Result<Pile, AllocError>
    requires files { files ≤ MOST_FILES }
    requires jobs { (hand < jobs) × (jobs ≤ MOST_JOBS) }
    ensures { IfOk result (λ p. (p.own ≡ true) × (p.share ≡ share all_parts (dealt jobs hand files) [])) }
{
    let room = files / jobs + 1;
    let mut pile = Pile::new(alloc, room as usize)?;
    let mut file = hand;
    while file < files {
        pile.push(file)?;
        file += jobs;
    }
    Ok(pile)
}

/// So many rows, each without a seat.
fn empty_rows(alloc: Global, jobs: u32) -> Result<Vec<Row>, AllocError>
    ensures { IfOk result (λ rows. rows.items ≡ replicate jobs []) }
{
    let mut rows = Vec::new(alloc);
    for _ in 0..jobs {
        rows.push(Row::new(alloc))?;
    }
    Ok(rows)
}

/// The seats of each hand.
fn dealt_rows(alloc: Global, files: u32, jobs: u32) -> Result<Vec<Row>, AllocError>
    requires files { files ≤ MOST_FILES }
    requires jobs { (0 < jobs) × (jobs ≤ MOST_JOBS) }
    ensures { IfOk result (λ rows. (names : List DequeId) × (length names ≡ jobs) × AreRows files jobs names rows.items) }
{
    let mut rows = empty_rows(alloc, jobs)?;
    for hand in 0..jobs {
        let pile = dealt_pile(alloc, files, jobs, hand)?;
        share_out(rows.as_mut_slice(), pile, hand as usize, files)?;
    }
    Ok(rows)
}

/// A hand for each row.
fn hands_of(alloc: Global, files: u32, rows: Vec<Row>) -> Result<Vec<Hand>, AllocError>
    requires few { (0 < length rows.items) × (length rows.items ≤ MOST_JOBS) }
    requires rows { (names : List DequeId) × (length names ≡ length rows.items) × AreRows files (length rows.items) names rows.items }
    ensures { IfOk result (λ hands. AreDealt files (length rows.items) hands.items) }
{
    let mut hands = Vec::new(alloc);
    let mut number = 0;
    for row in rows {
        hands.push(Hand::new(files, number, row.into_seats()))?;
        number += 1;
    }
    Ok(hands)
}

/// The hands of a deal.
pub struct Hands;

impl Hands {
    /// Deals the files: file k, in order, to the deque of hand `k mod jobs`.
    ///
    /// # Errors
    /// No memory.
    pub fn deal(alloc: Global, files: u32, jobs: u32) -> Result<Vec<Hand>, AllocError>
        requires files { files ≤ MOST_FILES }
        requires jobs { (0 < jobs) × (jobs ≤ MOST_JOBS) }
        ensures { IfOk result (λ hands. AreDealt files jobs hands.items) }
    {
        let rows = dealt_rows(alloc, files, jobs)?;
        hands_of(alloc, files, rows)
    }
}
