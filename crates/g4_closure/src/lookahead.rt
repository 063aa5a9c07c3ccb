// The start set of a decision, and the next set on a symbol.
ghost use Rattle.std.specs.Prelude.{◌≡◌, ◌<◌, ◌≤◌, ◌++◌, List, All, IfOk, OnOk, Some, length, reverse};
ghost use Rattle.g4_closure.specs.Steps.{AreExactly, FirstsBelow, alternatives_by, moved_by, target_by, targets_of};
ghost use Rattle.g4_configs.specs.Configs.{Holds};
ghost use Rattle.g4_configs.specs.Groups.{AreKnown, InSome, Same};
ghost use Rattle.g4_net.specs.Allowed.{Allows};
ghost use Rattle.g4_net.specs.Configurations.{Config, IsRow, IsWithin};
ghost use Rattle.g4_net.specs.declared.network.TheConstants.{MOST_STATES};
ghost use Rattle.g4_net.specs.Leads.{WellFormed};
ghost use Rattle.g4_net.specs.Lookahead.{Next, Rest, Start};
ghost use Rattle.g4_net.specs.Network.{state_at};

use crate::closure::reach;
use crate::marks::{is_marked, marks_of_allowed};
use g4_configs::{Configs, Group};
use g4_net::{Allowed, ParserNetwork, State};
use g4_tokens::Symbols;
use std::alloc::{AllocError, Global};

/// The kept configurations that the groups lead to, the set being empty.
pub(crate) fn rest(
    alloc: Global,
    net: &ParserNetwork,
    mut set: Configs,
    starts: &[Group],
) -> Result<Configs, AllocError>
    requires well_formed { WellFormed net.now }
    requires few { length net.now.states ≤ MOST_STATES }
    requires empty { (c : Config) → Holds set c → ⊥ }
    requires known { AreKnown set.graph starts.now }
    requires within { (c : Config) → InSome set.graph starts.now c → IsWithin net.now c }
    ensures members { IfOk result (λ found. Same (Holds found) (Rest net.now (InSome set.graph starts.now))) }
    ensures within { IfOk result (λ found. (c : Config) → Holds found c → IsWithin net.now c) }
    ensures row { IfOk result (λ found. (row : List Config) × IsRow row (Holds found)) }
{
    set.is_canonical();
    reach(alloc, net, &mut set, starts)?;
    set.keep(net);
    Ok(set)
}

/// The first states of a decision's alternatives.
pub(crate) fn alternatives<'a>(net: &'a ParserNetwork, decision: u32) -> &'a [u32]
    ensures { result.now ≡ alternatives_by (state_at net.now decision) }
{
    match net.states.as_slice().get(decision as usize) {
        Some(State::Decision(targets)) => targets.as_slice(),
        _ => &[],
    }
}

/// The allowed ones of these first states of alternatives, numbered from 1, with the one stack of a set. There is no memory
/// for more of them than a `u32` counts.
pub(crate) fn first_groups(
    alloc: Global,
    targets: &[u32],
    allowed: &Allowed,
    stacks: u32,
) -> Result<Vec<Group>, AllocError>
    ensures { IfOk result (λ found. AreExactly found.items (FirstsBelow (Allows allowed.now) stacks targets.now (length targets.now))) }
{
    let marks = marks_of_allowed(alloc, allowed, targets.len() + 1)?;
    let mut found = Vec::new(alloc);
    for (before, target) in targets.iter().enumerate() {
        let Ok(alternative) = u32::try_from(before + 1) else {
            return Err(AllocError);
        };
        if !is_marked(marks.as_slice(), alternative) {
            continue;
        }
        found.push(Group {
            state: *target,
            alternative,
            stacks,
        })?;
    }
    Ok(found)
}

/// Where the edge of the state leads, if it takes the symbol.
fn taken(state: &State<Symbols>, symbol: u32) -> Option<u32>
    ensures { result ≡ target_by symbol (Some state.now) }
{
    match state {
        State::Edge(set, target) if set.contains(symbol) => Some(*target),
        _ => None,
    }
}

/// Where the edge of the state of this number leads, if it takes the symbol.
fn target(net: &ParserNetwork, state: u32, symbol: u32) -> Option<u32>
    ensures { result ≡ target_by symbol (state_at net.now state) }
{
    match net.states.as_slice().get(state as usize) {
        Some(state) => taken(state, symbol),
        None => None,
    }
}

/// Adds the group at the target, if there is one.
fn push_moved(found: &mut Vec<Group>, group: &Group, target: Option<u32>) -> Result<(), AllocError>
    ensures { OnOk result (found.new.items ≡ found.old.items ++ moved_by group.now target) }
{
    if let Some(state) = target {
        found.push(Group { state, ..*group })?;
    }
    Ok(())
}

/// Where the edges that take the symbol lead from these groups.
pub(crate) fn targets(
    alloc: Global,
    net: &ParserNetwork,
    groups: &[Group],
    symbol: u32,
) -> Result<Vec<Group>, AllocError>
    ensures { IfOk result (λ found. found.items ≡ targets_of net.now symbol groups.now) }
{
    let mut found = Vec::new(alloc);
    for group in groups {
        let target = target(net, group.state, symbol);
        push_moved(&mut found, group, target)?;
    }
    Ok(found)
}

/// The start set of a decision: what the first states of its allowed alternatives lead to, with these return states, newest
/// last, above the wildcard or above the bottom of the parser's stack.
pub fn start(
    alloc: Global,
    net: &ParserNetwork,
    decision: u32,
    allowed: &Allowed,
    returns: &[u32],
    wild: bool,
) -> Result<Configs, AllocError>
    requires well_formed { WellFormed net.now }
    requires few { length net.now.states ≤ MOST_STATES }
    requires within { All (λ t. t < length net.now.states) returns.now }
    ensures members { IfOk result (λ found. Same (Holds found)
        (Start net.now decision (Allows allowed.now) (record { returns = reverse returns.now; wild = wild }))) }
    ensures within { IfOk result (λ found. (c : Config) → Holds found c → IsWithin net.now c) }
    ensures row { IfOk result (λ found. (row : List Config) × IsRow row (Holds found)) }
{
    let mut set = Configs::new(alloc)?;
    let stacks = set.bottom(returns, wild)?;
    let firsts = first_groups(alloc, alternatives(net, decision), allowed, stacks)?;
    let found = rest(alloc, net, set, firsts.as_slice())?;
    Ok(found)
}

/// The next set on a symbol: what the targets of the edges that take the symbol lead to.
pub fn advance(
    alloc: Global,
    net: &ParserNetwork,
    set: Configs,
    symbol: u32,
) -> Result<Configs, AllocError>
    requires well_formed { WellFormed net.now }
    requires few { length net.now.states ≤ MOST_STATES }
    requires within { (c : Config) → Holds set c → IsWithin net.now c }
    ensures members { IfOk result (λ found. Same (Holds found) (Next net.now (Holds set) symbol)) }
    ensures within { IfOk result (λ found. (c : Config) → Holds found c → IsWithin net.now c) }
    ensures row { IfOk result (λ found. (row : List Config) × IsRow row (Holds found)) }
{
    let groups = set.groups(alloc)?;
    let firsts = targets(alloc, net, groups.as_slice(), symbol)?;
    let found = rest(alloc, net, set.fresh(), firsts.as_slice())?;
    Ok(found)
}
