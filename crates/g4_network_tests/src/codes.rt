// The codes by which sets of configurations are found: sets that differ in their stacks alone have different ones.
use g4_configs::{Configs, Group};
use std::alloc::{AllocError, Global};
use std::collections::BTreeSet;
use std::test::Fail;

/// How many sets of two return states there are.
const SETS: u32 = 2_000;

/// How many sets of a higher stack each.
const NESTED: u32 = 400;

/// How many buckets the codes are put into by their remainders.
const BUCKETS: u64 = 2_048;

/// Adds a configuration of state 1 and alternative 1 with these return states, newest last.
fn put(set: &mut Configs, returns: &[u32]) -> Result<(), AllocError> {
    let stacks = set.bottom(returns, true)?;
    set.add(Group {
        state: 1,
        alternative: 1,
        stacks,
    })?;
    Ok(())
}

/// The code of a set of two stacks of two return states.
fn code_of_two(alloc: Global, one: [u32; 2], other: [u32; 2]) -> Result<u64, AllocError> {
    let mut set = Configs::new(alloc)?;
    put(&mut set, &one)?;
    put(&mut set, &other)?;
    let code = set.snapshot(alloc)?.code(alloc)?;
    Ok(code)
}

/// The code of a set of one stack.
fn code_of_one(alloc: Global, returns: &[u32]) -> Result<u64, AllocError> {
    let mut set = Configs::new(alloc)?;
    put(&mut set, returns)?;
    let code = set.snapshot(alloc)?.code(alloc)?;
    Ok(code)
}

/// How many different codes there are, and in how many of the buckets they are.
fn spread(alloc: Global, codes: &[u64]) -> Result<(usize, usize), AllocError> {
    let mut different = BTreeSet::new(alloc);
    let mut filled = BTreeSet::new(alloc);
    for code in codes {
        different.insert(*code)?;
        filled.insert(*code % BUCKETS)?;
    }
    Ok((different.len(), filled.len()))
}

/// The codes of sets of one stack, which has one return state as often as there were sets before.
fn nested(alloc: Global) -> Result<Vec<u64>, AllocError> {
    let mut returns = Vec::new(alloc);
    let mut codes = Vec::new(alloc);
    for _ in 0..NESTED {
        codes.push(code_of_one(alloc, returns.as_slice())?)?;
        returns.push(7)?;
    }
    Ok(codes)
}

/// The codes of sets of one stack of two return states.
fn squared(alloc: Global) -> Result<Vec<u64>, AllocError> {
    let mut codes = Vec::new(alloc);
    for number in 0..SETS {
        codes.push(code_of_one(alloc, &[number % 40, number / 40])?)?;
    }
    Ok(codes)
}

#[test]
fn codes_of_nested_stacks(rt: HostRuntime) -> Result<(), Fail> {
    let codes = nested(rt.alloc())?;
    let (different, filled) = spread(rt.alloc(), codes.as_slice())?;
    assert_eq!(rt; different, 400);
    assert!(rt; filled > 320, "{filled} of 2,048");
    Ok(())
}

#[test]
fn codes_of_two_return_states(rt: HostRuntime) -> Result<(), Fail> {
    let codes = squared(rt.alloc())?;
    let (different, filled) = spread(rt.alloc(), codes.as_slice())?;
    assert_eq!(rt; different, 2_000);
    assert!(rt; filled > 1_200, "{filled} of 2,048");
    Ok(())
}

#[test]
fn codes_of_stacks_with_parts_exchanged(rt: HostRuntime) -> Result<(), Fail> {
    let code = code_of_two(rt.alloc(), [1, 2], [3, 4])?;
    assert_eq!(rt; code_of_two(rt.alloc(), [3, 4], [1, 2])?, code);
    assert!(rt; code_of_two(rt.alloc(), [1, 4], [3, 2])? != code);
    assert!(rt; code_of_two(rt.alloc(), [2, 1], [4, 3])? != code);
    Ok(())
}
