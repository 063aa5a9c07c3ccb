// Two threads that learn and walk through passes of their own while each waits for the other.
ghost use Rattle.std.specs.Prelude.{◌≡◌, ◌<◌, ◌≤◌, All, IfOk};
ghost use Rattle.g4_store.specs.Paths.{IsPath};
ghost use Rattle.g4_store_tests.specs.Numbers.{StartsAt, LeadsTo};

use crate::numbers::{Number, Numbers, Salt, path_along};
use g4_store::automaton::Plan;
use g4_store::book::Learned;
use g4_store::pass::Pass;
use g4_store::path::Path;
use g4_store::steps::Steps;
use g4_store::store::{Opened, Store};
use g4_store::view::Home;
use g4_store::walk::Walk;
use std::alloc::{AllocError, Global};
use std::collections::BTreeSet;
use std::marker::Brand;
use std::sync::Wait;
use std::sync::atomic::{AtomicBool, Ordering};
use std::sync::ledger::{Blank, Ledger};
use std::test::Fail;
use std::thread::{Threads, join};

/// How often a thread looks for the other's flag.
const MOST_TURNS: u32 = 1_000_000_000;

/// How many columns the automaton has.
const COLUMNS: u32 = 64;

/// Columns in some order.
fn some_columns(alloc: Global, count: usize) -> Result<Vec<u32>, AllocError>
    ensures { IfOk result (λ columns. All (λ s. s < 64) columns.items) }
{
    let mut columns = Vec::with_capacity(alloc, count)?;
    let mut seed = 12345u32;
    for _ in 0..count {
        seed = seed.wrapping_mul(1103515245).wrapping_add(12345);
        columns.push((seed >> 16) % COLUMNS)?;
    }
    Ok(columns)
}

/// Whether a flag was set before the last turn.
fn comes(flag: &AtomicBool) -> bool {
    for _ in 0..MOST_TURNS {
        if flag.load(Ordering::SeqCst) {
            return true;
        }
    }
    false
}

/// What a thread did: whether the other's flag came, and whether it walked to the last column before it learned, learned all, and
/// walked to the last column then.
#[derive(Clone, Copy, Debug, PartialEq, Eq)]
struct Part {
    other_came: bool,
    knew: bool,
    learned: bool,
    walked: bool,
}

/// Whether a walk goes to the last column.
fn walks<B: Home<Salt>, L: Ledger>(
    store: &Store<Salt, Number, Numbers, B>,
    pass: &mut Pass<Salt, Number, B>,
    start: usize,
    columns: &[u32],
    steps: &mut Steps<L>,
) -> bool
    requires start { start < B.plan.starts }
    requires columns { All (λ s. s < B.plan.columns) columns.now }
{
    match store.walk(pass, start, columns, steps) {
        Walk::Open => true,
        _ => false,
    }
}

/// Learns a path and walks along it, with the other thread there.
fn take_part<B: Home<Salt>, R: Wait, L: Ledger>(
    rt: &R,
    store: &Store<Salt, Number, Numbers, B>,
    mut pass: Pass<Salt, Number, B>,
    path: Path<Number>,
    start: usize,
    columns: &[u32],
    flags: (&AtomicBool, &AtomicBool),
    blank: Blank,
) -> (Pass<Salt, Number, B>, Part)
    requires ledger { (blank.name ≡ L.name) × (blank.parts ≡ L.parts) × (0 < blank.parts) }
    requires start { start < B.plan.starts }
    requires columns { All (λ s. s < B.plan.columns) columns.now }
    requires path { IsPath StartsAt LeadsTo B.plan path }
{
    let mut steps = Steps::<L>::open(blank);
    flags.0.store(true, Ordering::SeqCst);
    let other_came = comes(flags.1);
    let knew = walks(store, &mut pass, start, columns, &mut steps);
    let learned = store.learn(rt, &mut pass, path) == Learned::All;
    let walked = walks(store, &mut pass, start, columns, &mut steps);
    let part = Part {
        other_came,
        knew,
        learned: learned && !pass.was_full(),
        walked,
    };
    (pass, part)
}

/// What two threads did, and how many rows the store then has.
#[derive(Clone, Copy, Debug, PartialEq, Eq)]
struct Outcome {
    parts: (Part, Part),
    rows: usize,
}

/// Two threads take part, and the store is closed.
fn both<
    B: Home<Salt> + Send + Sync,
    R: Threads + Wait + Sync,
    L: Ledger + Send + Sync,
    K: Ledger + Send + Sync,
>(
    rt: &R,
    alloc: Global,
    opened: Opened<Salt, Number, Numbers>,
    paths: (Path<Number>, Path<Number>),
    columns: &[u32],
    blank: Blank,
    second_blank: Blank,
) -> Result<Outcome, AllocError>
    requires names { (opened.table.shared.table_id ≡ B.table) × (opened.plan ≡ B.plan) }
    requires ledger { (blank.name ≡ L.name) × (blank.parts ≡ L.parts) × (0 < blank.parts) }
    requires second { (second_blank.name ≡ K.name) × (second_blank.parts ≡ K.parts) × (0 < second_blank.parts) }
    requires one { IsPath StartsAt LeadsTo B.plan paths.0 }
    requires two { IsPath StartsAt LeadsTo B.plan paths.1 }
    requires columns { All (λ s. s < B.plan.columns) columns.now }
    requires starts { 1 < B.plan.starts }
{
    let (store, mut first) = opened.named::<B>();
    let second = store.copy_pass(&mut first);
    let (path, other_path) = paths;
    let flags = (AtomicBool::new(false), AtomicBool::new(false));
    let (lent, flag, other_flag) = (&store, &flags.0, &flags.1);
    let ((mut first, part), (second, other_part)) = join(
        rt,
        move || -> (Pass<Salt, Number, B>, Part)
            requires ledger { (blank.name ≡ L.name) × (blank.parts ≡ L.parts) × (0 < blank.parts) }
            requires columns { All (λ s. s < B.plan.columns) columns.now }
            requires starts { 1 < B.plan.starts }
            requires path { IsPath StartsAt LeadsTo B.plan path }
        { take_part::<B, R, L>(rt, lent, first, path, 0, columns, (flag, other_flag), blank) },
        move || -> (Pass<Salt, Number, B>, Part)
            requires second { (second_blank.name ≡ K.name) × (second_blank.parts ≡ K.parts) × (0 < second_blank.parts) }
            requires columns { All (λ s. s < B.plan.columns) columns.now }
            requires starts { 1 < B.plan.starts }
            requires path { IsPath StartsAt LeadsTo B.plan other_path }
        {
            take_part::<B, R, K>(
                rt,
                lent,
                second,
                other_path,
                1,
                columns,
                (other_flag, flag),
                second_blank,
            )
        },
    );
    store.meet(&mut first, second);
    let Ok(listing) = store.close(alloc, first) else {
        return Err(AllocError);
    };
    Ok(Outcome {
        parts: (part, other_part),
        rows: listing.rows.len(),
    })
}

/// Two threads learn a path along these columns each, from two starts.
fn learn_both<R: Threads + Wait + Sync>(
    rt: &R,
    alloc: Global,
    columns: &[u32],
    rows: usize,
) -> Result<Outcome, AllocError>
    requires rows { rows ≤ 65536 }
    requires columns { All (λ s. s < 64) columns.now }
{
    let net = Salt { salt: 7 };
    let path = path_along(alloc, &net, 0, 64, columns)?;
    let other_path = path_along(alloc, &net, 1, 64, columns)?;
    let plan = Plan {
        rows,
        columns: 64,
        starts: 2,
        net,
    };
    let opened = Opened::new(alloc, plan)?;
    both::<Brand, R, Brand, Brand>(
        rt,
        alloc,
        opened,
        (path, other_path),
        columns,
        Blank::new(1),
        Blank::new(1),
    )
}

/// How many different numbers come along these columns from the two starts.
fn different(alloc: Global, columns: &[u32]) -> Result<usize, AllocError> {
    let mut numbers = BTreeSet::new(alloc);
    for start in 0..2u64 {
        let mut value = start;
        numbers.insert(value)?;
        for column in columns {
            value = (value % 1_000_003 * 7 + *column as u64 + 7) % 1_000_003;
            numbers.insert(value)?;
        }
    }
    Ok(numbers.len())
}

#[test]
fn two_threads_learn_all(rt: HostRuntime) -> Result<(), Fail> {
    let alloc = rt.alloc();
    let columns = some_columns(alloc, 20_000)?;
    let outcome = learn_both(&rt, alloc, columns.as_slice(), 65_536)?;
    let part = Part {
        other_came: true,
        knew: false,
        learned: true,
        walked: true,
    };
    assert_eq!(rt; outcome.parts, (part, part));
    assert_eq!(rt; outcome.rows, different(alloc, columns.as_slice())?);
    Ok(())
}

#[test]
fn two_threads_fill_all_rows(rt: HostRuntime) -> Result<(), Fail> {
    let alloc = rt.alloc();
    let columns = some_columns(alloc, 20_000)?;
    let outcome = learn_both(&rt, alloc, columns.as_slice(), 1_000)?;
    let part = Part {
        other_came: true,
        knew: false,
        learned: false,
        walked: false,
    };
    assert_eq!(rt; outcome.parts, (part, part));
    assert_eq!(rt; outcome.rows, 1_000);
    Ok(())
}
