// Putting outcomes into the places of their files, and joining the states.
ghost use Rattle.std.specs.Prelude.{◌≡◌, ◌≤◌, ◌⊎◌, ◌++◌, ◌∷◌, [], All, Contains, IfOk, List, false, true, ℕ};
ghost use Rattle.g4_workers.specs.Placing.{AreOutcomesOf, AreSlots, HasJoined, IsPlaced, IsReady, files_in, numbers_of};

use crate::work::Work;
use crate::worker::{Numbered, Worker};
use std::alloc::{AllocError, Global};

/// So many places without an outcome.
pub fn empty_slots<S, O: Drop, W: Work<S, O>>(
    alloc: Global,
    _work: &W,
    files: u32,
) -> Result<Vec<Option<O>>, AllocError>
    requires { files ≡ W.files _work.now }
    ensures slots { IfOk result (λ slots. AreSlots (W.files _work.now) (W.is_outcome _work.now) slots.items) }
    ensures none { IfOk result (λ slots. (file : ℕ) → IsPlaced slots.items file → ⊥) }
{
    let mut slots = Vec::new(alloc);
    for _ in 0..files {
        slots.push(None)?;
    }
    Ok(slots)
}

/// Puts the outcomes of a worker into their places.
fn place<S, O: Drop, W: Work<S, O>>(
    _work: &W,
    slots: &mut [Option<O>],
    mut outcomes: Vec<Numbered<O>>,
)
    requires slots { AreSlots (W.files _work.now) (W.is_outcome _work.now) slots.old }
    requires outcomes { AreOutcomesOf (W.files _work.now) (W.is_outcome _work.now) outcomes.items }
    ensures slots { AreSlots (W.files _work.now) (W.is_outcome _work.now) slots.new }
    ensures placed { (file : ℕ) → IsPlaced slots.new file → IsPlaced slots.old file ⊎ Contains (files_in outcomes.items) file }
{
    while let Some(numbered) = outcomes.pop() {
        let Numbered { file, outcome } = numbered;
        slots[file as usize] = Some(outcome);
    }
}

/// Joins the state of a worker in the caller's, unless the worker lost an outcome. Whether it did not.
fn join_state<S: Drop, O: Drop, W: Work<S, O>>(
    work: &W,
    state: &mut S,
    other: S,
    lost: bool,
) -> bool
    ensures { (numbers done others more : List ℕ) → result ≡ true → W.has_done work.now numbers done state.old
        → (lost ≡ false → W.has_done work.now others more other) → W.has_done work.now (numbers ++ others) (done ++ more) state.new }
{
    if lost {
        return false;
    }
    work.join(state, other);
    true
}

/// Puts the outcomes of all workers into their places, and joins their states in the caller's. Whether no worker lost an outcome.
pub fn place_all<S: Drop, O: Drop, W: Work<S, O>>(
    work: &W,
    slots: &mut [Option<O>],
    state: &mut S,
    mut workers: Vec<Worker<S, O>>,
) -> bool
    requires slots { AreSlots (W.files work.now) (W.is_outcome work.now) slots.old }
    requires none { (file : ℕ) → IsPlaced slots.old file → ⊥ }
    requires ready { All (IsReady (W.has_done work.now) (W.files work.now) (W.is_outcome work.now)) workers.items }
    requires begun { W.has_done work.now (0 ∷ []) [] state.old }
    ensures slots { AreSlots (W.files work.now) (W.is_outcome work.now) slots.new }
    ensures joined { (jobs : ℕ) → ((n : ℕ) → n ≤ jobs → (n ≡ 0) ⊎ Contains (numbers_of workers.items) n) → result ≡ true
        → HasJoined (W.has_done work.now) jobs (W.files work.now) (λ n. ⊥) (IsPlaced slots.new) state.new }
{
    let mut complete = true;
    while let Some(worker) = workers.pop() {
        let Worker {
            state: other,
            outcomes,
            lost,
            ..
        } = worker;
        place(work, slots, outcomes);
        if !join_state(work, state, other, lost) {
            complete = false;
        }
    }
    complete
}
