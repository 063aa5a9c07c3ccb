// The outcomes of all files, in order.
ghost use Rattle.std.specs.Prelude.{◌≡◌, ◌<◌, ◌⊎◌, ◌++◌, ◌∷◌, [], IfOk, IfSome, List, length, true, ℕ};
ghost use Rattle.std.specs.Option.{is_some};
ghost use Rattle.g4_workers.specs.Placing.{AreInPlace, AreSlots, HasAll, HasJoined, IsPlaced};

use crate::work::Work;
use std::alloc::{AllocError, Global};

/// The outcome that a file has, or else the one that the work gives now.
fn outcome_of<S, O: Drop, W: Work<S, O>>(
    work: &W,
    state: &mut S,
    file: u32,
    slot: Option<O>,
) -> Result<O, AllocError>
    requires file { file < W.files work.now }
    requires slot { IfSome slot (W.is_outcome work.now file) }
    ensures outcome { IfOk result (W.is_outcome work.now file) }
    ensures done { (numbers done : List ℕ) → W.has_done work.now numbers done state.old
        → IfOk result (λ _. ((is_some slot ≡ true) × W.has_done work.now numbers done state.new)
        ⊎ W.has_done work.now numbers (done ++ file ∷ []) state.new) }
{
    match slot {
        Some(outcome) => Ok(outcome),
        None => work.run(state, 0, file),
    }
}

/// The outcomes in order. What has none yet is worked on now, in order.
pub fn finish<S, O: Drop, W: Work<S, O>>(
    alloc: Global,
    work: &W,
    state: &mut S,
    files: u32,
    slots: &mut [Option<O>],
) -> Result<Vec<O>, AllocError>
    requires files { files ≡ W.files work.now }
    requires slots { AreSlots (W.files work.now) (W.is_outcome work.now) slots.old }
    ensures outcomes { IfOk result (λ outcomes. AreInPlace (W.files work.now) (W.is_outcome work.now) outcomes.items) }
    ensures all { (jobs : ℕ) → HasJoined (W.has_done work.now) jobs (W.files work.now) (λ n. ⊥) (IsPlaced slots.old) state.old
        → IfOk result (λ _. HasAll (W.has_done work.now) jobs (W.files work.now) state.new) }
{
    let mut outcomes = Vec::new(alloc);
    for file in 0..files {
        let slot = slots[file as usize].take();
        let outcome = outcome_of(work, state, file, slot)?;
        outcomes.push(outcome)?;
    }
    Ok(outcomes)
}
