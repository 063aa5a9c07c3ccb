// Snapshots of sets of configurations, and the sets again.
use g4_configs::{Configs, Group};
use std::alloc::{AllocError, Global};
use std::test::Fail;

/// Adds a configuration: its state, its alternative, and a return state above the bottom of the parser's stack.
fn put(set: &mut Configs, state: u32, alternative: u32, back: u32) -> Result<(), AllocError> {
    let stacks = set.bottom(&[back], false)?;
    set.add(Group {
        state,
        alternative,
        stacks,
    })?;
    Ok(())
}

/// Whether a snapshot with a code can be made of the set, which is the same as itself.
fn has_snapshot(alloc: Global, set: &Configs) -> Result<bool, AllocError> {
    let snapshot = set.snapshot(alloc)?;
    let code = snapshot.code(alloc)?;
    Ok(snapshot.same(&snapshot) && snapshot.code(alloc)? == code)
}

/// Whether the set that is made of its snapshot has the same snapshot, and as many groups.
fn comes_again(alloc: Global, set: &Configs) -> Result<bool, AllocError> {
    let snapshot = set.snapshot(alloc)?;
    let again = snapshot.load(alloc)?;
    Ok(again.snapshot(alloc)?.same(&snapshot) && again.count() == set.count())
}

/// The set of 1,000 alternatives at 100 states, each with its number as return state.
fn many(alloc: Global) -> Result<Configs, AllocError> {
    let mut set = Configs::new(alloc)?;
    for number in 0..100_000u32 {
        let alternative = number % 1_000 + 1;
        put(&mut set, number / 1_000, alternative, alternative)?;
    }
    Ok(set)
}

#[test]
fn a_set_of_many_configurations(rt: HostRuntime) -> Result<(), Fail> {
    let set = many(rt.alloc())?;
    assert!(rt; has_snapshot(rt.alloc(), &set)?);
    assert!(rt; comes_again(rt.alloc(), &set)?);
    Ok(())
}

/// How high the one stack of a set is.
const HEIGHT: u32 = 100_000;

/// A set of one configuration with these return states.
fn high(alloc: Global, returns: &[u32]) -> Result<Configs, AllocError> {
    let mut set = Configs::new(alloc)?;
    let stacks = set.bottom(returns, false)?;
    set.add(Group {
        state: 1,
        alternative: 1,
        stacks,
    })?;
    Ok(set)
}

#[test]
fn a_high_stack(rt: HostRuntime) -> Result<(), Fail> {
    let returns: Vec<u32> = (0..HEIGHT).collect(rt.alloc())?;
    let set = high(rt.alloc(), returns.as_slice())?;
    assert!(rt; has_snapshot(rt.alloc(), &set)?);
    assert!(rt; comes_again(rt.alloc(), &set)?);
    Ok(())
}

#[test]
fn an_empty_set_and_one_of_few_configurations(rt: HostRuntime) -> Result<(), Fail> {
    let mut set = Configs::new(rt.alloc())?;
    assert!(rt; comes_again(rt.alloc(), &set)?, "empty");
    for (state, alternative, back) in [(4, 1, 7), (4, 2, 8), (4, 2, 9), (3, 2, 7)] {
        put(&mut set, state, alternative, back)?;
    }
    let wild = set.wild();
    set.add(Group {
        state: 5,
        alternative: 1,
        stacks: wild,
    })?;
    assert!(rt; comes_again(rt.alloc(), &set)?);
    Ok(())
}
