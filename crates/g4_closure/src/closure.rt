// What groups of configurations lead to without a symbol read.
ghost use Rattle.std.specs.Prelude.{◌≡◌, ◌↔◌, ◌<◌, ◌≤◌, ◌*◌, ◌^◌, ◌++◌, ℕ, [], OnOk, Some, length, map, slice_get};
ghost use Rattle.g4_closure.specs.Joined.{Joined};
ghost use Rattle.g4_closure.specs.Waiting.{IsExtended, IsLater, IsSpent, IsWaiting};
ghost use Rattle.g4_closure.specs.Steps.{IsClosed, LedFrom, ReachedFrom, ReturnedFrom, SteppedFrom, listed_by, placed, popped_to};
ghost use Rattle.g4_configs.specs.Configs.{Holds, IsOfGroup, IsStacks, KeepsStacks};
ghost use Rattle.g4_configs.specs.Groups.{AreKnown, InSome, Same};
ghost use Rattle.g4_net.specs.Configurations.{Config, IsWithin};
ghost use Rattle.g4_net.specs.declared.network.State.TheVariants.{Call};
ghost use Rattle.g4_net.specs.declared.network.TheConstants.{MOST_STATES};
ghost use Rattle.g4_net.specs.Leads.{WellFormed};
ghost use Rattle.g4_net.specs.Network.{state_at};

use crate::filling::fill;
use g4_configs::{Configs, Group};
use g4_net::{ParserNetwork, State};
use g4_tokens::Symbols;
use std::alloc::{AllocError, Global};

/// How many groups the lists of a closure have room for at first.
const ROOM: usize = 64;

/// How many groups are followed, the newest first, however small the set is.
const PATIENCE: usize = 32;

/// How often the groups of the set are followed, the newest first, on average.
const MOST_VISITS: usize = 2;

/// How many groups are followed, the newest first, at most.
const LONGEST_DIVE: usize = 1_000_000_000;

/// Adds groups to the set, each also to the work list where the set grew.
pub(crate) fn add_all(
    set: &mut Configs,
    work: &mut Vec<Group>,
    groups: &[Group],
) -> Result<(), AllocError>
    requires waiting { AreKnown set.old.graph work.old.items }
    requires known { AreKnown set.old.graph groups.now }
    ensures { OnOk result (Joined set.old work.old.items groups.now set.new work.new.items) }
{
    for group in groups {
        if !set.add(*group)? {
            continue;
        }
        work.push(*group)?;
    }
    Ok(())
}

/// Adds the stacks of a set at each of the states.
fn push_each(
    found: &mut Vec<Group>,
    alternative: u32,
    stacks: u32,
    states: &[u32],
) -> Result<(), AllocError>
    ensures { OnOk result (found.new.items ≡ found.old.items ++ map (placed alternative stacks) states.now) }
{
    for state in states {
        found.push(Group {
            state: *state,
            alternative,
            stacks,
        })?;
    }
    Ok(())
}

/// Adds what is below the top of stacks, each at the state that was on top.
fn push_popped(
    found: &mut Vec<Group>,
    alternative: u32,
    tops: &[(u32, u32)],
) -> Result<(), AllocError>
    ensures { OnOk result (found.new.items ≡ found.old.items ++ map (popped_to alternative) tops.now) }
{
    for top in tops {
        let (state, stacks) = *top;
        found.push(Group {
            state,
            alternative,
            stacks,
        })?;
    }
    Ok(())
}

/// The return states listed of the calls of a rule.
pub(crate) fn callers_of(net: &ParserNetwork, rule: u32) -> &[u32]
    ensures { result.now ≡ listed_by (slice_get net.now.callers rule) }
{
    match net.callers.as_slice().get(rule as usize) {
        Some(callers) => callers.as_slice(),
        None => &[],
    }
}

/// Finds where the end of a rule leads.
pub(crate) fn returned(
    set: &Configs,
    net: &ParserNetwork,
    group: Group,
    rule: u32,
    found: &mut Vec<Group>,
) -> Result<(), AllocError>
    requires well_formed { WellFormed net.now }
    requires stacks { IsStacks set.now group.stacks }
    requires none { found.old.items ≡ [] }
    ensures known { OnOk result (AreKnown set.now.graph found.new.items) }
    ensures means { OnOk result (Same (InSome set.now.graph found.new.items) (ReturnedFrom net.now rule (IsOfGroup set.now group))) }
{
    push_popped(found, group.alternative, set.tops(group.stacks))?;
    if set.has_wild(group.stacks) {
        let callers = callers_of(net, rule);
        push_each(found, group.alternative, set.wild(), callers)?;
    }
    Ok(())
}

/// Finds where a group leads from this state.
fn steps(
    set: &mut Configs,
    net: &ParserNetwork,
    group: Group,
    state: &State<Symbols>,
    found: &mut Vec<Group>,
) -> Result<(), AllocError>
    requires well_formed { WellFormed net.now }
    requires stacks { IsStacks set.old group.stacks }
    requires fits { (rule level back : ℕ) → state.now ≡ Call rule level back → 2 * rule < 2 ^ 32 }
    requires none { found.old.items ≡ [] }
    ensures keeps { KeepsStacks set.old set.new }
    ensures same { (c : Config) → Holds set.new c ↔ Holds set.old c }
    ensures known { OnOk result (AreKnown set.new.graph found.new.items) }
    ensures means { OnOk result (Same (InSome set.new.graph found.new.items)
        (SteppedFrom net.now (Some state.now) (IsOfGroup set.old group))) }
{
    match state {
        State::Edge(..) => Ok(()),
        State::Decision(targets) => {
            push_each(found, group.alternative, group.stacks, targets.as_slice())?;
            Ok(())
        }
        State::Empty(to) => {
            push_each(found, group.alternative, group.stacks, &[*to])?;
            Ok(())
        }
        State::Predicate(_, to) => {
            push_each(found, group.alternative, group.stacks, &[*to])?;
            Ok(())
        }
        State::Level(_, to) => {
            push_each(found, group.alternative, group.stacks, &[*to])?;
            Ok(())
        }
        State::Action(to) => {
            push_each(found, group.alternative, group.stacks, &[*to])?;
            Ok(())
        }
        State::Call { rule, back, .. } => {
            let stacks = set.push(group.stacks, *back)?;
            push_each(found, group.alternative, stacks, &[2 * *rule])?;
            Ok(())
        }
        State::End(rule) => {
            returned(set, net, group, *rule, found)?;
            Ok(())
        }
    }
}

/// Finds where a group leads in one step.
pub(crate) fn successors(
    set: &mut Configs,
    net: &ParserNetwork,
    group: Group,
    found: &mut Vec<Group>,
) -> Result<(), AllocError>
    requires well_formed { WellFormed net.now }
    requires few { length net.now.states ≤ MOST_STATES }
    requires stacks { IsStacks set.old group.stacks }
    ensures keeps { KeepsStacks set.old set.new }
    ensures same { (c : Config) → Holds set.new c ↔ Holds set.old c }
    ensures known { OnOk result (AreKnown set.new.graph found.new.items) }
    ensures means { OnOk result (Same (InSome set.new.graph found.new.items) (LedFrom net.now (IsOfGroup set.old group))) }
{
    found.clear();
    match net.states.as_slice().get(group.state as usize) {
        None => Ok(()),
        Some(state) => {
            steps(set, net, group, state, found)?;
            Ok(())
        }
    }
}

/// Adds what a group leads to in one step, also to the work list where the set grew.
fn follow(
    set: &mut Configs,
    net: &ParserNetwork,
    group: Group,
    work: &mut Vec<Group>,
    found: &mut Vec<Group>,
) -> Result<(), AllocError>
    requires well_formed { WellFormed net.now }
    requires few { length net.now.states ≤ MOST_STATES }
    requires waiting { AreKnown set.old.graph work.old.items }
    requires stacks { IsStacks set.old group.stacks }
    ensures { OnOk result (IsExtended net.now group set.old work.old.items set.new work.new.items) }
{
    successors(set, net, group, found)?;
    add_all(set, work, found.as_slice())?;
    Ok(())
}

/// Follows the groups that wait, the newest first, until none is left, or some groups of the set have been followed again and again.
fn dive(
    set: &mut Configs,
    net: &ParserNetwork,
    work: &mut Vec<Group>,
    found: &mut Vec<Group>,
) -> Result<(), AllocError>
    requires well_formed { WellFormed net.now }
    requires few { length net.now.states ≤ MOST_STATES }
    requires waiting { IsWaiting net.now set.old work.old.items }
    ensures waiting { OnOk result (IsWaiting net.now set.new work.new.items) }
    ensures later { OnOk result (IsLater net.now set.old set.new) }
{
    for steps in 0..LONGEST_DIVE {
        if steps > PATIENCE && steps / MOST_VISITS > set.count() {
            return Ok(());
        }
        let Some(next) = work.pop() else {
            return Ok(());
        };
        follow(set, net, next, work, found)?;
    }
    Ok(())
}

/// Follows each group that waits, those of a state and an alternative as one. What they lead to waits then.
fn sweep(
    alloc: Global,
    set: &mut Configs,
    net: &ParserNetwork,
    work: &mut Vec<Group>,
    found: &mut Vec<Group>,
) -> Result<(), AllocError>
    requires well_formed { WellFormed net.now }
    requires few { length net.now.states ≤ MOST_STATES }
    requires waiting { IsWaiting net.now set.old work.old.items }
    ensures waiting { OnOk result (IsWaiting net.now set.new work.new.items) }
    ensures later { OnOk result (IsLater net.now set.old set.new) }
    ensures spent { OnOk result (IsSpent set.old set.new work.new.items) }
{
    let mut round = set.merged(alloc, work.as_slice())?;
    work.clear();
    while let Some(next) = round.pop() {
        follow(set, net, next, work, found)?;
    }
    Ok(())
}

/// Follows the groups that wait, and what they lead to, until none is left. The starts lead to all of the set.
fn finish(
    alloc: Global,
    set: &mut Configs,
    net: &ParserNetwork,
    starts: &[Group],
    work: &mut Vec<Group>,
    found: &mut Vec<Group>,
) -> Result<(), AllocError>
    requires well_formed { WellFormed net.now }
    requires few { length net.now.states ≤ MOST_STATES }
    requires within { (c : Config) → InSome set.old.graph starts.now c → IsWithin net.now c }
    requires sound { (c : Config) → Holds set.old c → ReachedFrom net.now (InSome set.old.graph starts.now) c }
    requires waiting { IsWaiting net.now set.old work.old.items }
    ensures keeps { OnOk result (KeepsStacks set.old set.new) }
    ensures sound { OnOk result ((c : Config) → Holds set.new c → ReachedFrom net.now (InSome set.old.graph starts.now) c) }
    ensures has { OnOk result ((c : Config) → Holds set.old c → Holds set.new c) }
    ensures closed { OnOk result (IsClosed net.now (Holds set.new)) }
{
    set.is_canonical();
    dive(set, net, work, found)?;
    while !work.is_empty() {
        sweep(alloc, set, net, work, found)?;
    }
    Ok(())
}

/// Adds to a set that lacks some of it all that the groups lead to, in any number of steps. The two lists are there to be used again.
fn complete(
    alloc: Global,
    set: &mut Configs,
    net: &ParserNetwork,
    starts: &[Group],
    found: &mut Vec<Group>,
) -> Result<(), AllocError>
    requires well_formed { WellFormed net.now }
    requires few { length net.now.states ≤ MOST_STATES }
    requires known { AreKnown set.old.graph starts.now }
    requires within { (c : Config) → InSome set.old.graph starts.now c → IsWithin net.now c }
    requires sound { (c : Config) → Holds set.old c → ReachedFrom net.now (InSome set.old.graph starts.now) c }
    ensures keeps { OnOk result (KeepsStacks set.old set.new) }
    ensures members { OnOk result (Same (Holds set.new) (ReachedFrom net.now (InSome set.old.graph starts.now))) }
{
    let mut work = set.groups(alloc)?;
    add_all(set, &mut work, starts)?;
    finish(alloc, set, net, starts, &mut work, found)?;
    Ok(())
}

/// Adds to an empty set all that the groups lead to, in any number of steps: first the newest found, which suits most sets. Where
/// that follows some groups again and again, it begins anew, in an order of its own.
pub(crate) fn reach(
    alloc: Global,
    net: &ParserNetwork,
    set: &mut Configs,
    starts: &[Group],
) -> Result<(), AllocError>
    requires well_formed { WellFormed net.now }
    requires few { length net.now.states ≤ MOST_STATES }
    requires empty { (c : Config) → Holds set.old c → ⊥ }
    requires known { AreKnown set.old.graph starts.now }
    requires within { (c : Config) → InSome set.old.graph starts.now c → IsWithin net.now c }
    ensures keeps { OnOk result (KeepsStacks set.old set.new) }
    ensures members { OnOk result (Same (Holds set.new) (ReachedFrom net.now (InSome set.old.graph starts.now))) }
{
    let mut work = Vec::with_capacity(alloc, ROOM)?;
    let mut found = Vec::with_capacity(alloc, ROOM)?;
    add_all(set, &mut work, starts)?;
    dive(set, net, &mut work, &mut found)?;
    if work.is_empty() {
        return Ok(());
    }
    set.clear();
    fill(alloc, net, set, starts)?;
    complete(alloc, set, net, starts, &mut found)?;
    Ok(())
}
