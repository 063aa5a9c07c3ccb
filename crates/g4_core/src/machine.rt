// The machine: its state, and what a step makes of it.
ghost use Rattle.std.specs.Prelude.{◌≡◌, ◌<◌, ◌^◌, IfOk, OnErr, OnOk, slice_set};
ghost use Rattle.g4_core.specs.States.{AreQuestions};
ghost use Rattle.g4_core.specs.Steps.{Changes, Steps, changed, opened};
ghost use Rattle.g4_core.specs.Stepping.{IsNotEnabled};
ghost use Rattle.g4_core.specs.declared.event.Event.{Event as EventOf};
ghost use Rattle.g4_store.specs.Words.{size_of};

use crate::event::{Change, Effect, Entry, Event, Given, Phase, Progress, Slot};
use g4_base::Sequence;
use g4_store::automaton::{Automaton, Content, Plan};
use g4_store::path::Path;
use std::alloc::{AllocError, Global};
use std::marker::{Model, PhantomData};

/// Why a step changes nothing.
#[derive(Clone, Copy, Debug, PartialEq, Eq)]
pub enum StepFault {
    NotEnabled,
    NoMemory,
}

impl From<AllocError> for StepFault {
    ghost use Rattle.std.specs.Prelude.{◌≡◌};
    ghost use Rattle.g4_core.specs.declared.machine.StepFault.TheVariants.{NoMemory};

    ghost from_gives = { λ _ e. e ≡ NoMemory };

    fn from(_: AllocError) -> Self {
        StepFault::NoMemory
    }
}

/// Workers that learn the paths of files of questions.
#[derive(Drop)]
pub struct Core<N: Drop, C: Content + Drop, A: Automaton<N, C>> {
    pub(crate) plan: Plan<N>,
    pub(crate) files: Sequence<Sequence<Path<C>>>,
    pub(crate) rows: Vec<C>,
    pub(crate) starts: Vec<Option<usize>>,
    pub(crate) cells: Vec<Option<Entry>>,
    pub(crate) progress: Vec<Progress>,
    pub(crate) workers: Vec<Phase>,
    pub(crate) answers: Vec<Given>,
    automaton: PhantomData<A>,
}

impl<N: Drop, C: Content + Drop, A: Automaton<N, C>> Model for Core<N, C, A> {
    ghost use Rattle.g4_core.specs.Laws.{IsReached};
    ghost use Rattle.g4_core.specs.States.{State};

    ghost Value = { State N C };

    ghost view = { λ c. record {
      plan = c.plan;
      files = c.files;
      rows = c.rows.items;
      starts = c.starts.items;
      cells = c.cells.items;
      progress = c.progress.items;
      workers = c.workers.items;
      answers = c.answers.items;
    } };

    ghost invariant = { λ c. IsReached A.starts A.leads c.plan c.files (record {
      plan = c.plan;
      files = c.files;
      rows = c.rows.items;
      starts = c.starts.items;
      cells = c.cells.items;
      progress = c.progress.items;
      workers = c.workers.items;
      answers = c.answers.items;
    }) };
}

/// Puts a value at a place of a list. Past its end nothing is changed.
fn put<T: Copy>(list: &mut Vec<T>, at: usize, value: T)
    ensures { list.new.items ≡ slice_set list.old.items at value }
{
    if at < list.len() {
        list[at] = value;
    }
}

impl<N: Drop, C: Content + Drop, A: Automaton<N, C>> Core<N, C, A> {
    /// The machine at the start: nothing is learned, and each of these workers is free.
    ///
    /// # Errors
    /// No memory.
    pub fn open(
        alloc: Global,
        plan: Plan<N>,
        files: Sequence<Sequence<Path<C>>>,
        workers: usize,
    ) -> Result<Core<N, C, A>, AllocError>
        requires size { size_of plan < 2 ^ 32 }
        requires asked { AreQuestions A.starts A.leads plan files }
        ensures { IfOk result (λ core. core ≡ opened plan files workers) }
    {
        let starts = vec![in alloc; None; plan.starts]?;
        let cells = vec![in alloc; None; plan.rows * plan.columns]?;
        let progress = vec![in alloc; Progress::Waiting; files.len()]?;
        let workers = vec![in alloc; Phase::Free; workers]?;
        Ok(Core {
            plan,
            files,
            rows: Vec::new(alloc),
            starts,
            cells,
            progress,
            workers,
            answers: Vec::new(alloc),
            automaton: PhantomData,
        })
    }

    /// Makes the step of an event.
    ///
    /// # Errors
    /// It is not enabled, or there is no memory. Then nothing is changed.
    pub fn step(&mut self, alloc: Global, event: Event) -> Result<(), StepFault>
        ensures steps { OnOk result (Steps self.old event self.new) }
        ensures unchanged { OnErr result (self.new ≡ self.old) }
        ensures exactly { IsNotEnabled self.old event result }
    {
        match self.change_of(alloc, event)? {
            Some(change) => {
                self.apply(change)?;
                Ok(())
            }
            None => Err(StepFault::NotEnabled),
        }
    }

    /// Makes a change.
    fn apply(&mut self, change: Change<C>) -> Result<(), AllocError>
        requires { (event : EventOf) × Changes self.old event change }
        ensures changed { OnOk result (self.new ≡ changed self.old change) }
        ensures unchanged { OnErr result (self.new ≡ self.old) }
    {
        let Change {
            worker,
            phase,
            effect,
        } = change;
        match effect {
            Effect::Nothing => {}
            Effect::Claims(file) => put(&mut self.progress, file, Progress::Claimed),
            Effect::Answers(given) => self.answers.push(given)?,
            Effect::Adds(content) => self.rows.push(content)?,
            Effect::Fills(Slot::Start(start, row)) => put(&mut self.starts, start, Some(row)),
            Effect::Fills(Slot::Cell(cell, entry)) => put(&mut self.cells, cell, Some(entry)),
            Effect::Finishes(file) => put(&mut self.progress, file, Progress::Finished),
        }
        put(&mut self.workers, worker, phase);
        Ok(())
    }
}
