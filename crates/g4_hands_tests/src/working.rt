// What workers do with files, whatever their number, and where they run out of memory.
ghost use Rattle.std.specs.Prelude.{◌≤◌, ◌<◌};

use g4_workers::{Finished, Work, run_all};
use std::alloc::{AllocError, Global};
use std::sync::Wait;
use std::test::*;
use std::thread::Threads;

/// The square of each file's number. A state counts the files, with those of the states that were joined in it. Workers from this number on
/// have no memory.
#[derive(Drop)]
struct Squares {
    files: u32,
    memory: u32,
}

impl Work<u64, u64> for Squares {
    ghost use Rattle.std.specs.Prelude.{◌≡◌, ◌*◌};

    ghost files = { λ w. w.files };

    ghost is_outcome = { λ w k o. o ≡ k * k };

    ghost has_done = { λ w numbers done s. Unit {0} };

    fn run(&self, state: &mut u64, worker: u32, file: u32) -> Result<u64, AllocError> {
        if worker >= self.memory {
            return Err(AllocError);
        }
        *state = state.wrapping_add(1);
        Ok(u64::from(file) * u64::from(file))
    }

    fn join(&self, state: &mut u64, other: u64) {
        *state = state.wrapping_add(other);
    }
}

/// The outcomes of so many files by so many workers, and how many files were worked on with the states that came to the caller.
fn squares_by<R: Threads + Wait + Sync>(
    rt: &R,
    alloc: Global,
    files: u32,
    jobs: usize,
    memory: u32,
) -> Result<(Finished<u64>, u64), AllocError>
    requires files { files ≤ 4096 }
    requires jobs { (0 < jobs) × (jobs ≤ 64) }
{
    let work = Squares { files, memory };
    let states = Vec::from_elem(alloc, 0u64, jobs)?;
    let mut count = 0u64;
    let finished = run_all(rt, alloc, &work, files, &mut count, states)?;
    Ok((finished, count))
}

/// The squares of the numbers below this one.
fn wanted(alloc: Global, files: u32) -> Result<Vec<u64>, AllocError> {
    let mut wanted = Vec::new(alloc);
    for file in 0..files {
        wanted.push(u64::from(file) * u64::from(file))?;
    }
    Ok(wanted)
}

#[test]
fn each_outcome_is_in_the_place_of_its_file(rt: HostRuntime) -> Result<(), Fail> {
    let alloc = rt.alloc();
    let (many, count) = squares_by(&rt, alloc, 4_096, 64, 64)?;
    assert_eq!(rt; many.outcomes.as_slice(), wanted(alloc, 4_096)?.as_slice());
    assert!(rt; many.complete);
    assert_eq!(rt; count, 4_096);
    let (few, count) = squares_by(&rt, alloc, 10, 3, 64)?;
    assert_eq!(rt; few.outcomes.as_slice(), wanted(alloc, 10)?.as_slice());
    assert!(rt; few.complete);
    assert_eq!(rt; count, 10);
    let (none, count) = squares_by(&rt, alloc, 0, 1, 64)?;
    assert_eq!(rt; none.outcomes.len(), 0);
    assert_eq!(rt; count, 0);
    Ok(())
}

#[test]
fn what_no_worker_came_to_is_finished_by_the_caller(rt: HostRuntime) -> Result<(), Fail> {
    let alloc = rt.alloc();
    let (finished, _) = squares_by(&rt, alloc, 100, 8, 1)?;
    assert_eq!(rt;
        finished.outcomes.as_slice(),
        wanted(alloc, 100)?.as_slice()
    );
    assert!(rt; squares_by(&rt, alloc, 1, 2, 0).is_err());
    Ok(())
}
