// Starts of decisions whose alternatives begin with levels or with predicates.
ghost use Rattle.std.specs.Prelude.{◌≡◌, ◌<◌, IsTrue};
ghost use Rattle.g4_guards.specs.Levels.{IsCondition, IsDecision};
ghost use Rattle.g4_learned_tests.specs.Leading.{is_level as level_by, leads_to_level as leads_by};
ghost use Rattle.g4_net.specs.Loops.{HasLoops};
ghost use Rattle.g4_net.specs.Network.{state_at};

use g4_base::Sequence;
use g4_guards::{Tests, allowed_at, tests_of};
use g4_learned::DecisionNet;
use g4_net::{Allowed, MOST_STATES, Network, ParserNetwork, State};
use g4_tokens::Symbols;
use std::alloc::{AllocError, Global};
use std::test::Fail;

/// A network of a decision between so many levels, which begin at the states after it, the highest first, and one empty edge.
fn levels(alloc: Global, count: u32) -> Result<ParserNetwork, AllocError>
    requires { count < 100000 }
{
    let mut targets = Vec::new(alloc);
    for target in 1..=count {
        targets.push(target)?;
    }
    targets.push(0)?;
    let mut states = vec![in alloc; State::Decision(Sequence::new(targets))]?;
    for level in 0..count {
        states.push(State::Level(2 * (count - level), 0))?;
    }
    Ok(Network {
        states: Sequence::new(states),
        callers: Sequence::new(Vec::new(alloc)),
        written: Sequence::new(Vec::new(alloc)),
    })
}

/// A network of a decision between so many predicates, which begin at the states after it, and one empty edge.
fn predicates(alloc: Global, count: u32) -> Result<ParserNetwork, AllocError>
    requires { count < 100000 }
{
    let mut targets = Vec::new(alloc);
    for target in 1..=count {
        targets.push(target)?;
    }
    targets.push(0)?;
    let mut states = vec![in alloc; State::Decision(Sequence::new(targets))]?;
    for number in 0..count {
        states.push(State::Predicate(number, 0))?;
    }
    Ok(Network {
        states: Sequence::new(states),
        callers: Sequence::new(Vec::new(alloc)),
        written: Sequence::new(Vec::new(alloc)),
    })
}

/// Whether the state of this number is a level.
fn is_level(net: &ParserNetwork, number: u32) -> bool
    ensures { result ≡ level_by (state_at net.now number) }
{
    match net.states.as_slice().get(number as usize) {
        Some(State::Level(..)) => true,
        _ => false,
    }
}

/// Whether the state may lead to a level, and is no decision.
fn leads_to_level(net: &ParserNetwork, state: &State<Symbols>) -> bool
    ensures { result ≡ leads_by net.now state.now }
{
    match state {
        State::Decision(_) | State::End(_) => false,
        State::Call { .. } => true,
        State::Edge(_, target) => is_level(net, *target),
        State::Predicate(_, target) => is_level(net, *target),
        State::Level(_, target) => is_level(net, *target),
        State::Action(target) => is_level(net, *target),
        State::Empty(target) => is_level(net, *target),
    }
}

/// Whether the network has no calls, and only decisions lead to levels.
fn has_plain_levels(net: &ParserNetwork) -> bool
    ensures { IsTrue result → HasLoops net.now }
{
    let states = net.states.as_slice();
    net.callers.len() == 0 && !states.iter().any(|state| leads_to_level(net, state))
}

/// Whether the state is a decision.
fn is_decision(net: &ParserNetwork) -> bool
    ensures { IsTrue result → IsDecision net.now 0 }
{
    match net.states.as_slice().get(0) {
        Some(State::Decision(_)) => true,
        _ => false,
    }
}

/// Whether the number is a condition of state 0.
fn is_condition(net: &ParserNetwork, condition: u32) -> bool
    requires { HasLoops net.now }
    ensures { IsTrue result → IsCondition net.now 0 condition }
{
    match tests_of(net, 0) {
        Tests::Levels => true,
        Tests::Few => condition == 0,
        Tests::Many => false,
    }
}

/// The start of state 0 under a condition, and how many starts there are.
fn start_at(alloc: Global, net: ParserNetwork, condition: u32) -> Result<(usize, usize), Fail> {
    if net.states.len() > MOST_STATES || !has_plain_levels(&net) {
        return Err(Fail::from("another network"));
    }
    let tables = DecisionNet::new(alloc, net)?;
    if !is_decision(tables.net()) || !has_plain_levels(tables.net()) {
        return Err(Fail::from("no decision"));
    }
    if !is_condition(tables.net(), condition) {
        return Ok((usize::MAX, tables.starts()));
    }
    Ok((tables.start_of(0, condition), tables.starts()))
}

/// How many alternatives of state 0, of which this one is the last, a condition allows: 0 where it does not allow that one.
fn allowed_of(
    alloc: Global,
    net: &ParserNetwork,
    condition: u32,
    last: u32,
) -> Result<usize, Fail> {
    if !has_plain_levels(net) {
        return Err(Fail::from("another network"));
    }
    let allowed = allowed_at(alloc, net, 0, condition)?;
    if !allowed.has(last) {
        return Ok(0);
    }
    match allowed {
        Allowed::Every => Ok(last as usize),
        Allowed::Listed(list) => Ok(list.len()),
    }
}

#[test]
fn allowed_of_many_levels(rt: HostRuntime) -> Result<(), Fail> {
    for (level, allowed) in [
        (0, 60_001),
        (2, 60_001),
        (3, 60_000),
        (60_001, 30_001),
        (120_001, 1),
    ] {
        assert_eq!(rt;
            allowed_of(rt.alloc(), &levels(rt.alloc(), 60_000)?, level, 60_001)?,
            allowed,
            "at {level}"
        );
    }
    Ok(())
}

#[test]
fn starts_of_two_levels(rt: HostRuntime) -> Result<(), Fail> {
    for (level, start) in [(0, 0), (2, 0), (3, 1), (4, 1), (5, 2), (4_294_967_295, 2)] {
        assert_eq!(rt;
            start_at(rt.alloc(), levels(rt.alloc(), 2)?, level)?,
            (start, 3),
            "at {level}"
        );
    }
    Ok(())
}

#[test]
fn starts_of_many_levels(rt: HostRuntime) -> Result<(), Fail> {
    assert_eq!(rt;
        start_at(rt.alloc(), levels(rt.alloc(), 60_000)?, 60_001)?,
        (30_000, 60_001)
    );
    Ok(())
}

#[test]
fn allowed_of_three_predicates(rt: HostRuntime) -> Result<(), Fail> {
    for (condition, allowed) in [(0, 1), (1, 2), (2, 2), (4, 2), (5, 3), (7, 4), (8, 1)] {
        assert_eq!(rt;
            allowed_of(rt.alloc(), &predicates(rt.alloc(), 3)?, condition, 4)?,
            allowed,
            "under {condition}"
        );
    }
    Ok(())
}

#[test]
fn allowed_of_many_predicates(rt: HostRuntime) -> Result<(), Fail> {
    let net = predicates(rt.alloc(), 60_000)?;
    assert_eq!(rt; allowed_of(rt.alloc(), &net, 4_294_967_295, 60_001)?, 33);
    Ok(())
}

#[test]
fn starts_of_predicates(rt: HostRuntime) -> Result<(), Fail> {
    for (count, start, starts) in [
        (1, 0, 2),
        (3, 0, 8),
        (6, 0, 64),
        (7, usize::MAX, 0),
        (60_000, usize::MAX, 0),
    ] {
        assert_eq!(rt;
            start_at(rt.alloc(), predicates(rt.alloc(), count)?, 0)?,
            (start, starts),
            "of {count}"
        );
    }
    Ok(())
}

#[test]
fn tests_of_predicates(rt: HostRuntime) -> Result<(), Fail> {
    for (count, tests) in [
        (0, Tests::Levels),
        (1, Tests::Few),
        (6, Tests::Few),
        (7, Tests::Many),
        (60_000, Tests::Many),
    ] {
        let net = predicates(rt.alloc(), count)?;
        if !has_plain_levels(&net) {
            return Err(Fail::from("another network"));
        }
        assert_eq!(rt; tests_of(&net, 0), tests, "of {count}");
    }
    Ok(())
}
