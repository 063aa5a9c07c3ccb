// A worker that is held at its first file until others have left theirs: workers overlap, and files of one are stolen by others.
use crate::many::writes_all;
use g4_ports::Gate;
use std::alloc::{AllocError, Global};
use std::sync::Wait;
use std::sync::atomic::{AtomicBool, AtomicU32, Ordering};
use std::test::*;
use std::thread::Threads;

/// How often a held worker looks how many files were left.
const MOST_TURNS: u32 = 1_000_000_000;

/// A gate that holds whoever enters it first, until so many files have been left.
#[derive(Drop)]
struct HoldGate {
    until: u32,
    entered: AtomicBool,
    left: AtomicU32,
    seen: AtomicU32,
}

impl Gate for HoldGate {
    fn enter(&self, _worker: u32, _file: u32) {
        if self.entered.swap(true, Ordering::SeqCst) {
            return;
        }
        for _ in 0..MOST_TURNS {
            if self.left.load(Ordering::SeqCst) >= self.until {
                break;
            }
        }
        self.seen
            .store(self.left.load(Ordering::SeqCst), Ordering::SeqCst);
    }

    fn leave(&self, _worker: u32, _file: u32) {
        self.left.fetch_add(1, Ordering::SeqCst);
    }
}

/// How many files were left while the first worker to enter was held, if all is written.
fn left_meanwhile<R: Threads + Wait + Sync>(
    rt: &R,
    alloc: Global,
    files: usize,
    jobs: u32,
    until: u32,
) -> Result<Option<u32>, AllocError> {
    let gate = HoldGate {
        until,
        entered: AtomicBool::new(false),
        left: AtomicU32::new(0),
        seen: AtomicU32::new(0),
    };
    let lengths: Vec<usize> = (0..files).collect(alloc)?;
    let written = writes_all(rt, alloc, lengths.as_slice(), jobs, &gate)?;
    let seen = gate.seen.load(Ordering::SeqCst);
    Ok(if written { Some(seen) } else { None })
}

#[test]
fn workers_overlap_and_steal(rt: HostRuntime) -> Result<(), Fail> {
    let alloc = rt.alloc();
    assert!(rt; left_meanwhile(&rt, alloc, 40, 8, 1)?.is_some_and(|left| left >= 1));
    assert_eq!(rt; left_meanwhile(&rt, alloc, 4, 2, 3)?, Some(3));
    assert_eq!(rt; left_meanwhile(&rt, alloc, 200, 3, 199)?, Some(199));
    Ok(())
}
