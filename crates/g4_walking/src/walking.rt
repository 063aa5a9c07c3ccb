// Walks of one thread and of many, with their times in nanoseconds.
ghost use Rattle.std.specs.Prelude.{◌≡◌, ◌<◌, All, true};
ghost use Rattle.g4_store.specs.Numbers.{has};

use crate::failure::Failure;
use crate::numbers::{Number, Numbers, Salt};
use crate::table::Table;
use g4_store::pass::Pass;
use g4_store::steps::Steps;
use g4_store::store::Store;
use g4_store::view::Home;
use g4_store::walk::Walk;
use std::alloc::{AllocError, Global};
use std::marker::Brand;
use std::sync::ledger::{Blank, Ledger};
use std::thread;
use std::thread::Threads;
use std::time::{Clock, Instant};

/// Whether a walk goes to the last column, with its loads counted by this ledger.
fn counted<B: Home<Salt>, L: Ledger>(
    store: &Store<Salt, Number, Numbers, B>,
    pass: &mut Pass<Salt, Number, B>,
    columns: &[u32],
    blank: Blank,
) -> bool
    requires ledger { (blank.name ≡ L.name) × (blank.parts ≡ L.parts) × (0 < blank.parts) }
    requires plan { (B.plan.columns ≡ 64) × (0 < B.plan.starts) }
    requires columns { All (λ s. s < 64) columns.now }
    ensures { pass.new.0.holds ≡ pass.old.0.holds }
{
    let mut steps = Steps::<L>::open(blank);
    match store.walk(pass, 0, columns, &mut steps) {
        Walk::Open => true,
        _ => false,
    }
}

/// Whether a walk goes to the last column.
fn walks<B: Home<Salt>>(
    store: &Store<Salt, Number, Numbers, B>,
    pass: &mut Pass<Salt, Number, B>,
    columns: &[u32],
) -> bool
    requires plan { (B.plan.columns ≡ 64) × (0 < B.plan.starts) }
    requires columns { All (λ s. s < 64) columns.now }
    ensures { pass.new.0.holds ≡ pass.old.0.holds }
{
    counted::<B, Brand>(store, pass, columns, Blank::new(1))
}

/// The time of a walk to the last column.
pub fn time_walk<B: Home<Salt>, R: Clock>(
    rt: &R,
    store: &Store<Salt, Number, Numbers, B>,
    pass: &mut Pass<Salt, Number, B>,
    columns: &[u32],
) -> Result<u128, Failure>
    requires plan { (B.plan.columns ≡ 64) × (0 < B.plan.starts) }
    requires columns { All (λ s. s < 64) columns.now }
    ensures { pass.new.0.holds ≡ pass.old.0.holds }
{
    let begin = Instant::now(rt)?;
    let ended = walks(store, pass, columns);
    let time = begin.elapsed(rt)?;
    if ended {
        Ok(time.as_nanos())
    } else {
        Err(Failure::NotLearned)
    }
}

/// The time of the plain loop along the columns.
pub fn time_loop<R: Clock>(rt: &R, table: &Table, columns: &[u32]) -> Result<u128, Failure>
    requires columns { All (λ s. s < 64) columns.now }
{
    let begin = Instant::now(rt)?;
    let last = table.go_along(columns);
    let time = begin.elapsed(rt)?;
    match last {
        Some(_) => Ok(time.as_nanos()),
        None => Err(Failure::NotLearned),
    }
}

/// So many passes, which have seen as much.
fn copies<B: Home<Salt>>(
    alloc: Global,
    store: &Store<Salt, Number, Numbers, B>,
    pass: &mut Pass<Salt, Number, B>,
    count: usize,
) -> Result<Vec<Pass<Salt, Number, B>>, AllocError>
    requires { has 0 pass.old.0.holds ≡ true }
    ensures { pass.new.0.holds ≡ pass.old.0.holds }
{
    let mut passes = Vec::with_capacity(alloc, count)?;
    for _ in 0..count {
        passes.push(store.copy_pass(pass))?;
    }
    Ok(passes)
}

/// The time in which so many threads, each with a pass of its own, walk to the last column.
pub fn time_together<B: Home<Salt> + Send + Sync, R: Threads + Clock + Sync>(
    rt: &R,
    alloc: Global,
    store: &Store<Salt, Number, Numbers, B>,
    pass: &mut Pass<Salt, Number, B>,
    columns: &[u32],
    threads: usize,
) -> Result<u128, Failure>
    requires plan { (B.plan.columns ≡ 64) × (0 < B.plan.starts) }
    requires columns { All (λ s. s < 64) columns.now }
    requires leads { has 0 pass.old.0.holds ≡ true }
    ensures { pass.new.0.holds ≡ pass.old.0.holds }
{
    let passes = copies(alloc, store, pass, threads)?;
    let begin = Instant::now(rt)?;
    let ended = thread::map_vec(
        rt,
        passes,
        &|mut own: Pass<Salt, Number, B>| -> bool
            requires plan { (B.plan.columns ≡ 64) × (0 < B.plan.starts) }
            requires columns { All (λ s. s < 64) columns.now }
        { walks(store, &mut own, columns) },
    )?;
    let time = begin.elapsed(rt)?;
    if ended.iter().all(|ended| *ended) {
        Ok(time.as_nanos())
    } else {
        Err(Failure::NotLearned)
    }
}
