// Rounds of walks on one store, and the fastest of them.
ghost use Rattle.std.specs.Prelude.{◌≡◌, ◌<◌, All, IfOk, true};
ghost use Rattle.g4_store.specs.Numbers.{has};
ghost use Rattle.g4_store.specs.Paths.{IsPath};
ghost use Rattle.g4_walking.specs.Numbers.{StartsAt, LeadsTo};

use crate::failure::Failure;
use crate::numbers::{COLUMNS, NUMBERS, Number, Numbers, Salt, path_along};
use crate::table::Table;
use crate::walking::{time_loop, time_together, time_walk};
use g4_store::automaton::Plan;
use g4_store::pass::Pass;
use g4_store::path::Path;
use g4_store::store::{Opened, Store};
use g4_store::view::Home;
use std::alloc::{AllocError, Global};
use std::marker::Brand;
use std::sync::Wait;
use std::thread::Threads;
use std::time::Clock;

/// How many threads walk together.
const THREADS: usize = 8;

/// Nanoseconds: of a walk, of the plain loop, and of the walks of all threads together.
#[derive(Clone, Copy)]
pub struct Times {
    pub walk: u128,
    pub plain: u128,
    pub together: u128,
}

impl Times {
    /// The lesser ones of both.
    fn or_less(self, other: Times) -> Times {
        Times {
            walk: self.walk.min(other.walk),
            plain: self.plain.min(other.plain),
            together: self.together.min(other.together),
        }
    }
}

/// Columns in some order.
fn some_columns(alloc: Global, count: usize) -> Result<Vec<u32>, AllocError>
    ensures { IfOk result (λ columns. All (λ s. s < 64) columns.items) }
{
    let mut columns = Vec::with_capacity(alloc, count)?;
    let mut seed = 12345u32;
    for _ in 0..count {
        seed = seed.wrapping_mul(1103515245).wrapping_add(12345);
        columns.push((seed >> 16) % 64)?;
    }
    Ok(columns)
}

fn round<B: Home<Salt> + Send + Sync, R: Threads + Clock + Sync>(
    rt: &R,
    alloc: Global,
    store: &Store<Salt, Number, Numbers, B>,
    pass: &mut Pass<Salt, Number, B>,
    table: &Table,
    columns: &[u32],
) -> Result<Times, Failure>
    requires plan { (B.plan.columns ≡ 64) × (0 < B.plan.starts) }
    requires columns { All (λ s. s < 64) columns.now }
    requires leads { has 0 pass.old.0.holds ≡ true }
    ensures { pass.new.0.holds ≡ pass.old.0.holds }
{
    Ok(Times {
        walk: time_walk(rt, store, pass, columns)?,
        plain: time_loop(rt, table, columns)?,
        together: time_together(rt, alloc, store, pass, columns, THREADS)?,
    })
}

/// Learns the path, and makes one round and so many more.
fn learn_and_walk<B: Home<Salt> + Send + Sync, R: Threads + Wait + Clock + Sync>(
    rt: &R,
    alloc: Global,
    opened: Opened<Salt, Number, Numbers>,
    path: Path<Number>,
    table: &Table,
    columns: &[u32],
    more: u32,
) -> Result<Times, Failure>
    requires names { (opened.table.shared.table_id ≡ B.table) × (opened.plan ≡ B.plan) }
    requires path { IsPath StartsAt LeadsTo B.plan path }
    requires columns { All (λ s. s < 64) columns.now }
    requires plan { (B.plan.columns ≡ 64) × (0 < B.plan.starts) }
{
    let (store, mut pass) = opened.named::<B>();
    store.learn(rt, &mut pass, path);
    let mut times = round(rt, alloc, &store, &mut pass, table, columns)?;
    for _ in 0..more {
        times = times.or_less(round(rt, alloc, &store, &mut pass, table, columns)?);
    }
    Ok(times)
}

/// The fastest times of walks along so many columns.
pub fn measure<R: Threads + Wait + Clock + Sync>(
    rt: &R,
    alloc: Global,
    steps: usize,
    rounds: u32,
) -> Result<Times, Failure> {
    let net = Salt { salt: 7 };
    let columns = some_columns(alloc, steps)?;
    let path = path_along(alloc, &net, columns.as_slice())?;
    let table = Table::new(alloc, net)?;
    let plan = Plan {
        rows: NUMBERS,
        columns: COLUMNS,
        starts: 1,
        net,
    };
    let opened = Opened::new(alloc, plan)?;
    learn_and_walk::<Brand, R>(
        rt,
        alloc,
        opened,
        path,
        &table,
        columns.as_slice(),
        rounds.saturating_sub(1),
    )
}
