// What hands take, in one thread and in many.
ghost use Rattle.std.specs.Prelude.{◌≤◌, ◌<◌};

use g4_hands::{Hand, Hands};
use std::alloc::{AllocError, Global};
use std::sync::Wait;
use std::sync::atomic::{AtomicBool, Ordering};
use std::test::*;
use std::thread::{Threads, for_each_mut, join};

/// How often a thread looks for the other's flag.
const MOST_TURNS: u32 = 1_000_000_000;

/// A hand, and the files that it has taken.
#[derive(Drop)]
struct Taker {
    hand: Hand,
    taken: Vec<u32>,
}

/// Takes files until there are none, or there is no memory to keep one.
fn take_all<R: Wait>(rt: &R, taker: &mut Taker) {
    for _ in rt.forever() {
        let Some(file) = taker.hand.take(rt) else {
            break;
        };
        if taker.taken.push(file).is_err() {
            break;
        }
    }
}

/// The hands, each with nothing taken.
fn takers(alloc: Global, files: u32, jobs: u32) -> Result<Vec<Taker>, AllocError>
    requires files { files ≤ 4096 }
    requires jobs { (0 < jobs) × (jobs ≤ 64) }
{
    let mut takers = Vec::new(alloc);
    for hand in Hands::deal(alloc, files, jobs)? {
        let taken = Vec::new(alloc);
        takers.push(Taker { hand, taken })?;
    }
    Ok(takers)
}

/// The files that the hand of this number takes, where no other takes any.
fn taken_alone<R: Wait>(
    rt: &R,
    alloc: Global,
    files: u32,
    jobs: u32,
    number: usize,
) -> Result<Vec<u32>, AllocError>
    requires files { files ≤ 4096 }
    requires jobs { (0 < jobs) × (jobs ≤ 64) }
{
    let mut takers = takers(alloc, files, jobs)?;
    let Some(taker) = takers.get_mut(number) else {
        return Ok(Vec::new(alloc));
    };
    take_all(rt, taker);
    taker.taken.clone()
}

#[test]
fn own_files_come_first_and_then_those_of_the_next_hands(rt: HostRuntime) -> Result<(), Fail> {
    let alloc = rt.alloc();
    let first = taken_alone(&rt, alloc, 8, 3, 0)?;
    assert_eq!(rt; first.as_slice(), [0, 3, 6, 1, 4, 7, 2, 5].as_slice());
    let second = taken_alone(&rt, alloc, 8, 3, 1)?;
    assert_eq!(rt; second.as_slice(), [1, 4, 7, 2, 5, 0, 3, 6].as_slice());
    let third = taken_alone(&rt, alloc, 8, 3, 2)?;
    assert_eq!(rt; third.as_slice(), [2, 5, 0, 3, 6, 1, 4, 7].as_slice());
    let only = taken_alone(&rt, alloc, 3, 1, 0)?;
    assert_eq!(rt; only.as_slice(), [0, 1, 2].as_slice());
    let idle = taken_alone(&rt, alloc, 2, 4, 3)?;
    assert_eq!(rt; idle.as_slice(), [0, 1].as_slice());
    let none = taken_alone(&rt, alloc, 0, 64, 63)?;
    assert_eq!(rt; none.len(), 0);
    Ok(())
}

/// Waits until the flag is set, for so many turns at most.
fn wait_for(flag: &AtomicBool) {
    for _ in 0..MOST_TURNS {
        if flag.load(Ordering::SeqCst) {
            break;
        }
    }
}

/// Takes one file, and waits for the flag.
fn take_one<R: Wait>(rt: &R, mut taker: Taker, flag: &AtomicBool) -> Option<u32> {
    let file = taker.hand.take(rt);
    wait_for(flag);
    file
}

/// Takes all files, and sets the flag.
fn take_rest<R: Wait>(rt: &R, mut taker: Taker, flag: &AtomicBool) -> Vec<u32> {
    take_all(rt, &mut taker);
    flag.store(true, Ordering::SeqCst);
    taker.taken
}

/// What two threads take, of which one takes one file and then waits until the other is done.
fn held_and_rest<R: Threads + Wait + Sync>(
    rt: &R,
    alloc: Global,
) -> Result<Option<(Option<u32>, Vec<u32>)>, AllocError> {
    let mut takers = takers(alloc, 4, 2)?;
    let (Some(second), Some(first)) = (takers.pop(), takers.pop()) else {
        return Ok(None);
    };
    let flag = AtomicBool::new(false);
    let done = &flag;
    Ok(Some(join(
        rt,
        move || take_one(rt, first, done),
        move || take_rest(rt, second, done),
    )))
}

#[test]
fn a_held_hand_loses_its_files_to_another(rt: HostRuntime) -> Result<(), Fail> {
    let alloc = rt.alloc();
    let (held, mut files) = held_and_rest(&rt, alloc)?.unwrap_or((None, Vec::new(alloc)));
    if let Some(file) = held {
        files.push(file)?;
    }
    files.sort()?;
    assert_eq!(rt; files.as_slice(), [0, 1, 2, 3].as_slice());
    Ok(())
}

/// All files that many threads take, in order of their numbers.
fn taken_by_many<R: Threads + Wait + Sync>(
    rt: &R,
    alloc: Global,
    files: u32,
    jobs: u32,
) -> Result<Vec<u32>, AllocError>
    requires files { files ≤ 4096 }
    requires jobs { (0 < jobs) × (jobs ≤ 64) }
{
    let mut takers = takers(alloc, files, jobs)?;
    for_each_mut(
        rt,
        takers.as_mut_slice(),
        64,
        &|_, taker| take_all(rt, taker),
    );
    let mut all = Vec::new(alloc);
    for taker in &takers {
        all.extend_from_slice(taker.taken.as_slice())?;
    }
    all.sort()?;
    Ok(all)
}

/// The numbers below this one.
fn numbers(alloc: Global, end: u32) -> Result<Vec<u32>, AllocError> {
    (0..end).collect(alloc)
}

#[test]
fn many_threads_take_each_file_once(rt: HostRuntime) -> Result<(), Fail> {
    let alloc = rt.alloc();
    let many = taken_by_many(&rt, alloc, 4_096, 64)?;
    assert_eq!(rt; many.as_slice(), numbers(alloc, 4_096)?.as_slice());
    let few = taken_by_many(&rt, alloc, 4_096, 3)?;
    assert_eq!(rt; few.as_slice(), numbers(alloc, 4_096)?.as_slice());
    let none = taken_by_many(&rt, alloc, 3, 64)?;
    assert_eq!(rt; none.as_slice(), numbers(alloc, 3)?.as_slice());
    Ok(())
}
