// All files, by so many workers.
ghost use Rattle.std.specs.Prelude.{◌≡◌, ◌<◌, ◌≤◌, ◌⊎◌, All, Contains, IfOk, Some, length, slice_get, suc, true, ℕ};
ghost use Rattle.g4_hands.specs.Hands.{AreDealt};
ghost use Rattle.g4_workers.specs.Placing.{AreInPlace, HasAll, HasBegun, HaveBegun, IsReady, numbers_of};

use crate::finish::finish;
use crate::place::{empty_slots, place_all};
use crate::work::Work;
use crate::worker::{Worker, work_together};
use g4_hands::{Hand, Hands};
use std::alloc::{AllocError, Global};
use std::sync::Wait;
use std::thread::Threads;

/// The outcomes of all files.
#[derive(Drop)]
pub struct Finished<O> {
    /// Outcome k is that of file k.
    pub outcomes: Vec<O>,
    /// Whether the states of all workers are joined in the caller's: none of them was without memory for an outcome.
    pub complete: bool,
}

/// A worker for each state, with the hand of its number.
fn workers_of<S: Drop, O: Drop, W: Work<S, O>>(
    alloc: Global,
    _work: &W,
    mut hands: Vec<Hand>,
    mut states: Vec<S>,
) -> Result<Vec<Worker<S, O>>, AllocError>
    requires hands { AreDealt (W.files _work.now) (length hands.items) hands.items }
    requires few { length hands.items ≤ 64 }
    requires paired { length states.items ≡ length hands.items }
    requires begun { (i : ℕ) (state : S) → slice_get states.items i ≡ Some state → HasBegun (W.has_done _work.now) (suc i) state }
    ensures ready { IfOk result (λ workers.
        All (IsReady (W.has_done _work.now) (W.files _work.now) (W.is_outcome _work.now)) workers.items) }
    ensures numbers { IfOk result (λ workers. (n : ℕ) → n ≤ length states.items
        → (n ≡ 0) ⊎ Contains (numbers_of workers.items) n) }
{
    let mut workers = Vec::new(alloc);
    while let (Some(hand), Some(state)) = (hands.pop(), states.pop()) {
        let number = hands.len() as u32;
        let outcomes = Vec::new(alloc);
        workers.push(Worker {
            number,
            hand,
            state,
            outcomes,
            lost: false,
        })?;
    }
    Ok(workers)
}

/// The outcome of each file, in its place, by a worker for each of these states. What no worker came to, for want of memory, is worked
/// on by the caller, with its own state. The states of the workers are joined in the caller's, but for those of workers that had no
/// memory for an outcome.
///
/// # Errors
/// No memory.
pub fn run_all<R: Threads + Wait + Sync, S: Drop + Send, O: Drop + Send, W: Work<S, O>>(
    rt: &R,
    alloc: Global,
    work: &W,
    files: u32,
    state: &mut S,
    states: Vec<S>,
) -> Result<Finished<O>, AllocError>
    requires files { (files ≡ W.files work.now) × (files ≤ 4096) }
    requires jobs { (0 < length states.items) × (length states.items ≤ 64) }
    requires begun { HaveBegun (W.has_done work.now) state.old states.items }
    ensures outcomes { IfOk result (λ r. AreInPlace (W.files work.now) (W.is_outcome work.now) r.outcomes.items) }
    ensures all { IfOk result (λ r. r.complete ≡ true
        → HasAll (W.has_done work.now) (length states.items) (W.files work.now) state.new) }
{
    let hands = Hands::deal(alloc, files, states.len() as u32)?;
    let mut workers = workers_of(alloc, work, hands, states)?;
    work_together(rt, work, workers.as_mut_slice());
    let mut slots = empty_slots(alloc, work, files)?;
    let complete = place_all(work, slots.as_mut_slice(), state, workers);
    let outcomes = finish(alloc, work, state, files, slots.as_mut_slice())?;
    Ok(Finished { outcomes, complete })
}
