// What an event changes, where it is enabled.
ghost use Rattle.std.specs.Prelude.{◌≡◌, ◌↔◌, ℕ, Bool, true, IfOk, IsTrue, MatchOption, length};
ghost use mathlib.Core.Option.{some};
ghost use lib.ListN.{get_elem?};
ghost use Rattle.g4_core.specs.Steps.{Changes, LeftToLearn, OthersWait, Reads, Stands};
ghost use Rattle.g4_core.specs.Steps.{CellChanges, ClaimChanges, FinishChanges, ProbeChanges, RowChanges};
ghost use Rattle.g4_core.specs.declared.event.Change.{Change as ChangeOf};
ghost use Rattle.g4_core.specs.declared.event.Phase.{Phase as PhaseOf};
ghost use Rattle.g4_core.specs.declared.event.Phase.TheVariants.{Learning};
ghost use Rattle.g4_core.specs.declared.event.Progress.TheVariants.{Waiting};
ghost use Rattle.g4_core.specs.declared.event.Place.TheVariants.{Cell, Start};

use crate::event::{Change, Effect, Entry, Event, Given, Phase, Place, Progress};
use crate::machine::Core;
use crate::sights::item_at;
use g4_store::automaton::{Automaton, Content, Led};
use g4_store::path::Path;
use std::alloc::{AllocError, Global};

impl<N: Drop, C: Content + Drop, A: Automaton<N, C>> Core<N, C, A> {
    /// What an event changes; nothing where it is not enabled.
    pub(crate) fn change_of(
        &self,
        alloc: Global,
        event: Event,
    ) -> Result<Option<Change<C>>, AllocError>
        ensures { IfOk result (λ found. MatchOption found ((c : ChangeOf C) → Changes self.now event c → ⊥) (Changes self.now event)) }
    {
        match event {
            Event::Claim(worker, file) => Ok(self.claim(worker, file)),
            Event::Probe(worker) => Ok(self.probe(worker)),
            Event::LearnRow(worker) => self.learn_row(alloc, worker),
            Event::LearnCell(worker) => Ok(self.learn_cell(worker)),
            Event::Finish(worker) => Ok(self.finish(worker)),
        }
    }

    /// The phase of a worker as it stands: one with nothing left to learn goes on.
    fn stands(&self, worker: usize) -> Option<Phase>
        ensures { MatchOption result ((phase : PhaseOf) → Stands self.now worker phase → ⊥) (Stands self.now worker) }
    {
        let phase = item_at(self.workers.as_slice(), worker)?;
        match phase {
            Phase::Learning(file, question, _) => {
                let path = self.path_of(file, question)?;
                if self.is_learned(path) {
                    Some(self.phase_after(file, question))
                } else {
                    Some(phase)
                }
            }
            _ => Some(phase),
        }
    }

    /// Whether a worker is in the middle of learning a path.
    fn is_learning(&self, worker: usize) -> bool
        ensures { IsTrue result ↔ ((file question : ℕ) × Stands self.now worker (Learning file question true)) }
    {
        match self.stands(worker) {
            Some(phase) => is_begun(phase),
            None => false,
        }
    }

    fn count_workers(&self) -> usize
        ensures { result ≡ length self.now.workers }
    {
        self.workers.len()
    }

    /// Whether no other worker is in the middle of learning a path.
    fn others_wait(&self, worker: usize) -> bool
        ensures { IsTrue result ↔ OthersWait self.now worker }
    {
        for other in 0..self.count_workers() {
            if other != worker && self.is_learning(other) {
                return false;
            }
        }
        true
    }

    /// The question whose path a worker may learn now, by file and number.
    fn learns(&self, worker: usize) -> Option<(usize, usize)>
        ensures { MatchOption result
            ((file question : ℕ) (begun : Bool) → Stands self.now worker (Learning file question begun) → OthersWait self.now worker → ⊥)
            (λ x. OthersWait self.now worker × (begun : Bool) × Stands self.now worker (Learning x.0 x.1 begun)) }
    {
        let Some(phase) = self.stands(worker) else {
            return None;
        };
        match phase {
            Phase::Learning(file, question, _) => {
                if self.others_wait(worker) {
                    Some((file, question))
                } else {
                    None
                }
            }
            _ => None,
        }
    }

    fn claim(&self, worker: usize, file: usize) -> Option<Change<C>>
        ensures { MatchOption result ((c : ChangeOf C) → ClaimChanges self.now worker file c → ⊥) (ClaimChanges self.now worker file) }
    {
        let Some(phase) = self.stands(worker) else {
            return None;
        };
        match phase {
            Phase::Free => {
                if !self.is_waiting(file) {
                    return None;
                }
                Some(Change {
                    worker,
                    phase: self.phase_at(file, 0),
                    effect: Effect::Claims(file),
                })
            }
            _ => None,
        }
    }

    /// Whether no worker has had a file.
    fn is_waiting(&self, file: usize) -> bool
        ensures { IsTrue result ↔ (get_elem? self.now.progress file ≡ some Waiting) }
    {
        match item_at(self.progress.as_slice(), file) {
            Some(progress) => is_waiting(progress),
            None => false,
        }
    }

    fn finish(&self, worker: usize) -> Option<Change<C>>
        ensures { MatchOption result ((c : ChangeOf C) → FinishChanges self.now worker c → ⊥) (FinishChanges self.now worker) }
    {
        let Some(phase) = self.stands(worker) else {
            return None;
        };
        match phase {
            Phase::Ended(file) => Some(Change {
                worker,
                phase: Phase::Free,
                effect: Effect::Finishes(file),
            }),
            _ => None,
        }
    }

    fn probe(&self, worker: usize) -> Option<Change<C>>
        ensures { MatchOption result ((c : ChangeOf C) → ProbeChanges self.now worker c → ⊥) (ProbeChanges self.now worker) }
    {
        let Some(phase) = self.stands(worker) else {
            return None;
        };
        match phase {
            Phase::Reading(file, question, place) => {
                let path = self.path_of(file, question)?;
                self.read(worker, file, question, path, place)
            }
            _ => None,
        }
    }

    /// What reading at a place changes.
    fn read(
        &self,
        worker: usize,
        file: usize,
        question: usize,
        path: &Path<C>,
        place: Place,
    ) -> Option<Change<C>>
        ensures { MatchOption result ((c : ChangeOf C) → Reads self.now worker file question path.now place c → ⊥)
            (Reads self.now worker file question path.now place) }
    {
        match place {
            Place::Start => self.read_start(worker, file, question, path),
            Place::Cell(row, at) => self.read_cell(worker, file, question, path, row, at),
        }
    }

    fn read_start(
        &self,
        worker: usize,
        file: usize,
        question: usize,
        path: &Path<C>,
    ) -> Option<Change<C>>
        ensures { MatchOption result ((c : ChangeOf C) → Reads self.now worker file question path.now Start c → ⊥)
            (Reads self.now worker file question path.now Start) }
    {
        match self.start_at(path.start) {
            Some(row) => Some(Change {
                worker,
                phase: Phase::Reading(file, question, Place::Cell(row, 0)),
                effect: Effect::Nothing,
            }),
            None => left_to_learn(worker, file, question, path),
        }
    }

    fn read_cell(
        &self,
        worker: usize,
        file: usize,
        question: usize,
        path: &Path<C>,
        row: usize,
        at: usize,
    ) -> Option<Change<C>>
        ensures { MatchOption result ((c : ChangeOf C) → Reads self.now worker file question path.now (Cell row at) c → ⊥)
            (Reads self.now worker file question path.now (Cell row at)) }
    {
        let Some(looked) = path.looked.get(at) else {
            return None;
        };
        match self.entry_at(row, looked.column) {
            Some(Entry::Row(next, _)) => Some(Change {
                worker,
                phase: Phase::Reading(file, question, Place::Cell(next, at + 1)),
                effect: Effect::Nothing,
            }),
            Some(Entry::End(code)) => Some(Change {
                worker,
                phase: self.phase_after(file, question),
                effect: Effect::Answers(Given {
                    file,
                    question,
                    code,
                    at,
                }),
            }),
            None => left_to_learn(worker, file, question, path),
        }
    }

    fn learn_row(&self, alloc: Global, worker: usize) -> Result<Option<Change<C>>, AllocError>
        ensures { IfOk result (λ found. MatchOption found ((c : ChangeOf C) → RowChanges self.now worker c → ⊥)
            (RowChanges self.now worker)) }
    {
        let Some(turn) = self.learns(worker) else {
            return Ok(None);
        };
        let Some(path) = self.path_of(turn.0, turn.1) else {
            return Ok(None);
        };
        let Some(row) = self.next_row(path) else {
            return Ok(None);
        };
        let content = row.copy(alloc)?;
        Ok(Some(Change {
            worker,
            phase: Phase::Learning(turn.0, turn.1, true),
            effect: Effect::Adds(content),
        }))
    }

    fn learn_cell(&self, worker: usize) -> Option<Change<C>>
        ensures { MatchOption result ((c : ChangeOf C) → CellChanges self.now worker c → ⊥) (CellChanges self.now worker) }
    {
        let _ = &self.plan;
        let Some(turn) = self.learns(worker) else {
            return None;
        };
        let Some(path) = self.path_of(turn.0, turn.1) else {
            return None;
        };
        let Some(slot) = self.next_slot(path) else {
            return None;
        };
        Some(Change {
            worker,
            phase: Phase::Learning(turn.0, turn.1, true),
            effect: Effect::Fills(slot),
        })
    }
}

/// Whether a file waits for a worker.
fn is_waiting(progress: Progress) -> bool
    ensures { IsTrue result ↔ (progress ≡ Waiting) }
{
    match progress {
        Progress::Waiting => true,
        Progress::Claimed => false,
        Progress::Finished => false,
    }
}

/// Whether a worker is in the middle of learning a path.
fn is_begun(phase: Phase) -> bool
    ensures { IsTrue result ↔ ((file question : ℕ) × (phase ≡ Learning file question true)) }
{
    match phase {
        Phase::Free => false,
        Phase::Reading(_, _, _) => false,
        Phase::Learning(_, _, begun) => begun,
        Phase::Ended(_) => false,
    }
}

/// What changes where a start or a cell held nothing: the question is answered by the path's own end, and the path is left to be
/// learned.
fn left_to_learn<C: Drop>(
    worker: usize,
    file: usize,
    question: usize,
    path: &Path<C>,
) -> Option<Change<C>>
    ensures { MatchOption result ((c : ChangeOf C) → LeftToLearn worker file question path.now c → ⊥)
        (LeftToLearn worker file question path.now) }
{
    let last = path.looked.back()?;
    let Led::End(code) = &last.led else {
        return None;
    };
    Some(Change {
        worker,
        phase: Phase::Learning(file, question, false),
        effect: Effect::Answers(Given {
            file,
            question,
            code: *code,
            at: path.looked.len() - 1,
        }),
    })
}
