// A worker, and what it does.
ghost use Rattle.std.specs.Prelude.{◌≡◌, All, length};
ghost use Rattle.g4_workers.specs.Placing.{IsReady, numbers_of};

use crate::work::Work;
use g4_hands::Hand;
use std::sync::Wait;
use std::thread::{Threads, for_each_mut};

/// An outcome, and the number of its file.
#[derive(Drop)]
pub struct Numbered<O> {
    pub file: u32,
    pub outcome: O,
}

/// A worker with its hand of the files, its state, and the outcomes so far.
#[derive(Drop)]
pub struct Worker<S, O> {
    pub number: u32,
    pub hand: Hand,
    pub state: S,
    pub outcomes: Vec<Numbered<O>>,
    /// Whether there was no memory for an outcome.
    pub lost: bool,
}

/// Works on the next file. Whether there was one, and memory for its outcome. The room for the outcome is made before the file is
/// taken: once the work on a file is done, and what it went by is given back, nothing that was found is lost for want of memory.
fn work_on_next<R: Wait, S, O: Drop, W: Work<S, O>>(
    rt: &R,
    work: &W,
    worker: &mut Worker<S, O>,
) -> bool
    requires { IsReady (W.has_done work.now) (W.files work.now) (W.is_outcome work.now) worker.old }
    ensures ready { IsReady (W.has_done work.now) (W.files work.now) (W.is_outcome work.now) worker.new }
    ensures number { worker.new.number ≡ worker.old.number }
{
    if worker.outcomes.reserve(1).is_err() {
        return false;
    }
    let Some(file) = worker.hand.take(rt) else {
        return false;
    };
    let Ok(outcome) = work.run(&mut worker.state, worker.number, file) else {
        worker.lost = true;
        return false;
    };
    worker.outcomes.push_reserved(Numbered { file, outcome });
    true
}

/// Works on files until there are none, or until there is no memory for one.
fn work_through<R: Wait, S, O: Drop, W: Work<S, O>>(rt: &R, work: &W, worker: &mut Worker<S, O>)
    requires { IsReady (W.has_done work.now) (W.files work.now) (W.is_outcome work.now) worker.old }
    ensures ready { IsReady (W.has_done work.now) (W.files work.now) (W.is_outcome work.now) worker.new }
    ensures number { worker.new.number ≡ worker.old.number }
{
    for _ in rt.forever() {
        if !work_on_next(rt, work, worker) {
            break;
        }
    }
}

/// All workers at once.
pub fn work_together<R: Threads + Wait + Sync, S: Send, O: Drop + Send, W: Work<S, O>>(
    rt: &R,
    work: &W,
    workers: &mut [Worker<S, O>],
)
    requires { All (IsReady (W.has_done work.now) (W.files work.now) (W.is_outcome work.now)) workers.old }
    ensures long { length workers.new ≡ length workers.old }
    ensures ready { All (IsReady (W.has_done work.now) (W.files work.now) (W.is_outcome work.now)) workers.new }
    ensures numbers { numbers_of workers.new ≡ numbers_of workers.old }
{
    let threads = workers.len() + 1;
    for_each_mut(
        rt,
        workers,
        threads,
        &|_, worker: &mut Worker<S, O>|
            requires { IsReady (W.has_done work.now) (W.files work.now) (W.is_outcome work.now) worker.now }
            ensures { IsReady (W.has_done work.entry.now) (W.files work.entry.now) (W.is_outcome work.entry.now) worker.exit.now
                × (worker.exit.now.number ≡ worker.entry.now.number) }
        { work_through(rt, work, worker) },
    );
}
