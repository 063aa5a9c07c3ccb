// Whether something is kept ahead of a group of configurations, as far as one way shows it.
ghost use Rattle.std.specs.Prelude.{◌≡◌, ◌≤◌, IsTrue, MatchOption, Some, length, slice_get};
ghost use Rattle.g4_closure.specs.Ahead.{GoesOn, IsNextReturn, IsWay, onward_by, to_target};
ghost use Rattle.g4_configs.specs.Configs.{HasStack, IsOfGroup, IsStacks};
ghost use Rattle.g4_net.specs.Configurations.{Stack};
ghost use Rattle.g4_net.specs.declared.network.State.TheVariants.{End};
ghost use Rattle.g4_net.specs.declared.network.TheConstants.{MOST_STATES};
ghost use Rattle.g4_net.specs.Leads.{WellFormed};
ghost use Rattle.g4_net.specs.Network.{state_at};

use crate::closure::callers_of;
use g4_configs::{Configs, Group};
use g4_net::{ParserNetwork, State};

/// How many states of a way are looked at.
const LONGEST_WAY: u32 = 64;

/// How many ends of rules a way goes through.
const MOST_ENDS: u32 = 64;

/// Where a state leads without a symbol, by its first edge.
#[derive(Clone, Copy)]
pub(crate) enum Onward {
    /// Configurations at the state are kept.
    Kept,
    /// It is the end of this rule.
    Ends(u32),
    /// To this state.
    To(u32),
    /// To the start of this rule, which it calls.
    Into(u32),
    /// Nowhere.
    Nowhere,
}

/// Where the way from a state ends.
#[derive(Clone, Copy)]
pub(crate) enum Way {
    /// Where configurations are kept.
    Kept,
    /// At the end of this rule, which is that of the state.
    Ends(u32),
    /// It was not gone to its end.
    Unknown,
}

/// Where a decision with these targets leads.
fn first_of(targets: &[u32]) -> Onward
    ensures { result ≡ to_target (slice_get targets.now 0) }
{
    match targets.first() {
        Some(to) => Onward::To(*to),
        None => Onward::Nowhere,
    }
}

/// Where the end of a rule leads: configurations at the end of the added rule are kept.
fn end_of(rule: u32) -> Onward
    ensures { result ≡ onward_by (Some (End rule)) }
{
    if rule == 0 {
        Onward::Kept
    } else {
        Onward::Ends(rule)
    }
}

/// Where the state of this number leads.
fn onward_from(net: &ParserNetwork, number: u32) -> Onward
    ensures { result ≡ onward_by (state_at net.now number) }
{
    match net.states.as_slice().get(number as usize) {
        Some(State::Edge(..)) => Onward::Kept,
        Some(State::End(rule)) => end_of(*rule),
        Some(State::Call { rule, .. }) => Onward::Into(*rule),
        Some(State::Decision(targets)) => first_of(targets.as_slice()),
        Some(State::Empty(to)) => Onward::To(*to),
        Some(State::Action(to)) => Onward::To(*to),
        Some(State::Level(_, to)) => Onward::To(*to),
        Some(State::Predicate(_, to)) => Onward::To(*to),
        None => Onward::Nowhere,
    }
}

/// Where the way from a state ends. It goes into the rules that are called, and not through their ends.
fn way_from(net: &ParserNetwork, state: u32) -> Way
    requires well_formed { WellFormed net.now }
    requires few { length net.now.states ≤ MOST_STATES }
    ensures { IsWay net.now state result }
{
    let mut at = state;
    let mut inside = false;
    for _ in 0..LONGEST_WAY {
        match onward_from(net, at) {
            Onward::Kept => return Way::Kept,
            Onward::Ends(rule) if !inside => return Way::Ends(rule),
            Onward::To(next) => at = next,
            Onward::Into(rule) => {
                at = 2 * rule;
                inside = true;
            }
            _ => return Way::Unknown,
        }
    }
    Way::Unknown
}

/// Whether there is a stack in a set of stacks.
fn has_some(set: &Configs, stacks: u32) -> bool
    requires { IsStacks set.now stacks }
    ensures { IsTrue result → ((s : Stack) × HasStack set.now stacks s) }
{
    if set.has_end(stacks) {
        return true;
    }
    if set.has_wild(stacks) {
        return true;
    }
    !set.tops(stacks).is_empty()
}

/// One group to which the end of a rule leads.
fn returned_to(net: &ParserNetwork, set: &Configs, group: Group, rule: u32) -> Option<Group>
    requires well_formed { WellFormed net.now }
    requires stacks { IsStacks set.now group.stacks }
    ensures { MatchOption result (Unit {0}) (IsNextReturn net.now set.now rule group) }
{
    if let Some((state, stacks)) = set.tops(group.stacks).first().copied() {
        return Some(Group {
            state,
            stacks,
            ..group
        });
    }
    if !set.has_wild(group.stacks) {
        return None;
    }
    let state = callers_of(net, rule).first().copied()?;
    Some(Group {
        state,
        stacks: set.wild(),
        ..group
    })
}

/// Whether something is kept of what the group leads to. It says no of some groups of which that is so: where one way does not
/// show it.
pub(crate) fn goes_on(net: &ParserNetwork, set: &Configs, from: Group) -> bool
    requires well_formed { WellFormed net.now }
    requires few { length net.now.states ≤ MOST_STATES }
    requires stacks { IsStacks set.now from.stacks }
    ensures { IsTrue result → GoesOn net.now (IsOfGroup set.now from) }
{
    let mut at = from;
    for _ in 0..MOST_ENDS {
        match way_from(net, at.state) {
            Way::Kept => return has_some(set, at.stacks),
            Way::Unknown => return false,
            Way::Ends(rule) => match returned_to(net, set, at, rule) {
                Some(next) => at = next,
                None => return false,
            },
        }
    }
    false
}
