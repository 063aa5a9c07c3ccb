// What groups of configurations lead to, in an order in which each state is mostly followed once.
ghost use Rattle.std.specs.Prelude.{◌≡◌, ◌≤◌, IfSome, OnOk, length};
ghost use Rattle.g4_closure.specs.Ends.{AreEnds};
ghost use Rattle.g4_closure.specs.Filling.{HasAfter, IsAfter, IsGrown};
ghost use Rattle.g4_closure.specs.Steps.{ReachedFrom};
ghost use Rattle.g4_configs.specs.Configs.{Holds, IsOfGroup, IsStacks, KeepsStacks};
ghost use Rattle.g4_configs.specs.Groups.{AreKnown, InSome};
ghost use Rattle.g4_net.specs.Configurations.{Config};
ghost use Rattle.g4_net.specs.declared.network.TheConstants.{MOST_STATES};
ghost use Rattle.g4_net.specs.Leads.{WellFormed};

use crate::closure::successors;
use crate::exploring::Explored;
use crate::returns::with_returns;
use g4_configs::{Configs, Group};
use g4_net::{ParserNetwork, State};
use std::alloc::{AllocError, Global};
use std::collections::BinaryHeap;

/// How many groups are followed, at most.
const MOST_GROUPS: usize = 1_000_000_000;

/// States and alternatives that wait, each after the number of states that were left before it: what was left last comes first.
type Waiting = BinaryHeap<(u32, u32, u32)>;

/// The places of the groups, those with lower stacks first.
fn in_order(alloc: Global, groups: &[Group]) -> Result<Vec<(u32, usize)>, AllocError> {
    let mut order = Vec::with_capacity(alloc, groups.len())?;
    for (place, group) in groups.iter().enumerate() {
        order.push((group.stacks, place))?;
    }
    order.sort_unstable();
    Ok(order)
}

/// Adds a group. Where the set grew, the group's state and alternative wait.
fn add(
    set: &mut Configs,
    explored: &Explored,
    waiting: &mut Waiting,
    group: Group,
) -> Result<(), AllocError>
    requires { IsStacks set.old group.stacks }
    ensures { OnOk result (IsGrown set.old (IsOfGroup set.old group) set.new) }
{
    if !set.add(group)? {
        return Ok(());
    }
    waiting.push((explored.before(group.state), group.state, group.alternative))?;
    Ok(())
}

/// Adds groups.
fn add_each(
    set: &mut Configs,
    explored: &Explored,
    waiting: &mut Waiting,
    groups: &[Group],
) -> Result<(), AllocError>
    requires { AreKnown set.old.graph groups.now }
    ensures { OnOk result (IsGrown set.old (InSome set.old.graph groups.now) set.new) }
{
    for group in groups {
        add(set, explored, waiting, *group)?;
    }
    Ok(())
}

/// Adds groups, those with lower stacks first.
fn add_in_order(
    alloc: Global,
    set: &mut Configs,
    explored: &Explored,
    waiting: &mut Waiting,
    groups: &[Group],
) -> Result<(), AllocError>
    requires { AreKnown set.old.graph groups.now }
    ensures { OnOk result (IsGrown set.old (InSome set.old.graph groups.now) set.new) }
{
    let order = in_order(alloc, groups)?;
    for item in order.as_slice() {
        let (_, place) = *item;
        if place >= groups.len() {
            continue;
        }
        add(set, explored, waiting, groups[place])?;
    }
    Ok(())
}

/// What is after the call at a group's state, with the group's stacks, if the rule that is called can end before a symbol is read.
fn after_call(net: &ParserNetwork, explored: &Explored, group: Group) -> Option<Group>
    requires { AreEnds net.now explored.now.marks.items }
    ensures { IfSome result (IsAfter net.now group) }
{
    match net.states.as_slice().get(group.state as usize) {
        Some(State::Call { rule, back, .. }) => {
            let start = rule.checked_mul(2)?;
            explored.ends(start)?;
            Some(Group {
                state: *back,
                ..group
            })
        }
        _ => None,
    }
}

/// Adds what is after the call at a group's state, if the rule that is called can end before a symbol is read.
fn push_after(
    net: &ParserNetwork,
    explored: &Explored,
    group: Group,
    found: &mut Vec<Group>,
) -> Result<(), AllocError>
    requires { AreEnds net.now explored.now.marks.items }
    ensures { OnOk result (HasAfter net.now group found.old.items found.new.items) }
{
    if let Some(after) = after_call(net, explored, group) {
        found.push(after)?;
    }
    Ok(())
}

/// Adds what a group leads to in one step, and what is after its call.
fn follow(
    set: &mut Configs,
    net: &ParserNetwork,
    explored: &Explored,
    waiting: &mut Waiting,
    group: Group,
    found: &mut Vec<Group>,
) -> Result<(), AllocError>
    requires well_formed { WellFormed net.now }
    requires few { length net.now.states ≤ MOST_STATES }
    requires ends { AreEnds net.now explored.now.marks.items }
    requires stacks { IsStacks set.old group.stacks }
    ensures { OnOk result (IsGrown set.old (ReachedFrom net.now (IsOfGroup set.old group)) set.new) }
{
    successors(set, net, group, found)?;
    push_after(net, explored, group, found)?;
    add_each(set, explored, waiting, found.as_slice())?;
    Ok(())
}

/// Follows what waits, and what that leads to.
fn follow_all(
    alloc: Global,
    set: &mut Configs,
    net: &ParserNetwork,
    explored: &Explored,
    waiting: &mut Waiting,
) -> Result<(), AllocError>
    requires well_formed { WellFormed net.now }
    requires few { length net.now.states ≤ MOST_STATES }
    requires ends { AreEnds net.now explored.now.marks.items }
    ensures { OnOk result (IsGrown set.old (ReachedFrom net.now (Holds set.old)) set.new) }
{
    let mut found = Vec::new(alloc);
    for _ in 0..MOST_GROUPS {
        let Some(next) = waiting.pop() else {
            return Ok(());
        };
        if waiting.peek().copied() == Some(next) {
            continue;
        }
        let (_, state, alternative) = next;
        let Some(stacks) = set.stacks_at(state, alternative) else {
            continue;
        };
        let group = Group {
            state,
            alternative,
            stacks,
        };
        follow(set, net, explored, waiting, group, &mut found)?;
    }
    Ok(())
}

/// Adds to an empty set much of what groups lead to, in any number of steps: mostly all of it. What the ends of rules lead to down the
/// stacks is added first, the lowest stacks before those above them, so that each merge goes by those before it. Then each state is
/// followed after those that lead to it, once it has all of its stacks.
pub(crate) fn fill(
    alloc: Global,
    net: &ParserNetwork,
    set: &mut Configs,
    starts: &[Group],
) -> Result<(), AllocError>
    requires well_formed { WellFormed net.now }
    requires few { length net.now.states ≤ MOST_STATES }
    requires empty { (c : Config) → Holds set.old c → ⊥ }
    requires known { AreKnown set.old.graph starts.now }
    ensures keeps { OnOk result (KeepsStacks set.old set.new) }
    ensures sound { OnOk result ((c : Config) → Holds set.new c → ReachedFrom net.now (InSome set.old.graph starts.now) c) }
{
    let mut explored = Explored::new(alloc, net)?;
    let first = with_returns(alloc, net, &mut explored, set, starts)?;
    let mut waiting = BinaryHeap::new(alloc);
    add_in_order(alloc, set, &explored, &mut waiting, first.as_slice())?;
    follow_all(alloc, set, net, &explored, &mut waiting)?;
    Ok(())
}
