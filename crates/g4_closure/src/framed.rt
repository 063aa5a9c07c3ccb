// Framed sets: what groups lead to as far as the hole, which is the bottom of their stacks.
ghost use Rattle.std.specs.Prelude.{◌≡◌, ◌<◌, ◌≤◌, ◌↔◌, ◌++◌, [], All, IfOk, List, OnOk, false, length, reverse};
ghost use Rattle.g4_closure.specs.Framing.{AreHeld, IsHeldBy, IsOfOption, hold_by, items_of};
ghost use Rattle.g4_configs.specs.Configs.{HasStack, Holds, IsOfGroup, IsStacks};
ghost use Rattle.g4_configs.specs.Groups.{AreKnown, InSome, Same};
ghost use Rattle.g4_frames.specs.Framed.{Framed, FramedNext, FramedStart, Lowered};
ghost use Rattle.g4_net.specs.Allowed.{Allows};
ghost use Rattle.g4_net.specs.Configurations.{Config, IsRow, IsWithin, Stack, above_bottom};
ghost use Rattle.g4_net.specs.declared.network.TheConstants.{MOST_STATES};
ghost use Rattle.g4_net.specs.Leads.{WellFormed};
ghost use Rattle.g4_net.specs.Network.{state_at};

use crate::closure::{add_all, reach};
use crate::lookahead::{alternatives, first_groups, targets};
use g4_configs::{Configs, Group};
use g4_net::{Allowed, ParserNetwork, State};
use std::alloc::{AllocError, Global};

/// What is held of the configurations of a state.
#[derive(Clone, Copy)]
pub(crate) enum Hold {
    /// All of them.
    All,
    /// Those at the hole.
    AtHole,
    /// None.
    Nothing,
}

/// What is held of the configurations of this state.
fn hold_of(net: &ParserNetwork, state: u32) -> Hold
    ensures { result ≡ hold_by (state_at net.now state) }
{
    match net.states.as_slice().get(state as usize) {
        Some(State::Edge(..)) => Hold::All,
        Some(State::End(rule)) => { if *rule == 0 { Hold::All } else { Hold::AtHole } }
        _ => Hold::Nothing,
    }
}

/// What is held of a group.
fn held_of(set: &Configs, bottom: u32, group: Group, hold: Hold) -> Option<Group>
    requires stacks { IsStacks set.now group.stacks }
    requires bottom { IsStacks set.now bottom }
    requires alone { (s : Stack) → HasStack set.now bottom s ↔ (s ≡ above_bottom []) }
    ensures known { AreKnown set.now.graph (items_of result) }
    ensures means { (c : Config) → IsOfOption set.now result c ↔ (IsOfGroup set.now group c × IsHeldBy hold c) }
{
    match hold {
        Hold::All => Some(group),
        Hold::AtHole => {
            if !set.has_end(group.stacks) {
                return None;
            }
            Some(Group {
                stacks: bottom,
                ..group
            })
        }
        Hold::Nothing => None,
    }
}

/// Adds the group, if there is one.
fn push_held(found: &mut Vec<Group>, held: Option<Group>) -> Result<(), AllocError>
    ensures { OnOk result (found.new.items ≡ found.old.items ++ items_of held) }
{
    if let Some(group) = held {
        found.push(group)?;
    }
    Ok(())
}

/// What is held of groups.
fn held_groups(
    alloc: Global,
    net: &ParserNetwork,
    set: &Configs,
    bottom: u32,
    groups: &[Group],
) -> Result<Vec<Group>, AllocError>
    requires known { AreKnown set.now.graph groups.now }
    requires bottom { IsStacks set.now bottom }
    requires alone { (s : Stack) → HasStack set.now bottom s ↔ (s ≡ above_bottom []) }
    ensures { IfOk result (λ found. AreHeld net.now set.now groups.now found.items) }
{
    let mut found = Vec::new(alloc);
    for group in groups {
        let hold = hold_of(net, group.state);
        let held = held_of(set, bottom, *group, hold);
        push_held(&mut found, held)?;
    }
    Ok(found)
}

/// What the groups lead to as far as the hole, the set being empty.
fn framed_rest(
    alloc: Global,
    net: &ParserNetwork,
    mut set: Configs,
    starts: &[Group],
) -> Result<Configs, AllocError>
    requires well_formed { WellFormed net.now }
    requires few { length net.now.states ≤ MOST_STATES }
    requires empty { (c : Config) → Holds set c → ⊥ }
    requires known { AreKnown set.graph starts.now }
    requires within { (c : Config) → InSome set.graph starts.now c → IsWithin net.now c }
    ensures members { IfOk result (λ found. Same (Holds found) (Framed net.now (InSome set.graph starts.now))) }
    ensures within { IfOk result (λ found. (c : Config) → Holds found c → IsWithin net.now c) }
    ensures row { IfOk result (λ found. (row : List Config) × IsRow row (Holds found)) }
{
    set.is_canonical();
    reach(alloc, net, &mut set, starts)?;
    let bottom = set.bottom(&[], false)?;
    let groups = set.groups(alloc)?;
    let held = held_groups(alloc, net, &set, bottom, groups.as_slice())?;
    let mut found = set.fresh();
    let mut work = Vec::new(alloc);
    add_all(&mut found, &mut work, held.as_slice())?;
    Ok(found)
}

/// The step of a framed set by return states, newest last: they are put in the place of the hole, with a new hole below.
pub fn lower(
    alloc: Global,
    net: &ParserNetwork,
    set: &Configs,
    states: &[u32],
) -> Result<Configs, AllocError>
    requires well_formed { WellFormed net.now }
    requires few { length net.now.states ≤ MOST_STATES }
    requires states { All (λ t. t < length net.now.states) states.now }
    requires within { (c : Config) → Holds set.now c → IsWithin net.now c }
    requires bottomed { (c : Config) → Holds set.now c → c.stack.wild ≡ false }
    ensures members { IfOk result (λ found. Same (Holds found) (Lowered net.now (Holds set.now) (reverse states.now))) }
    ensures within { IfOk result (λ found. (c : Config) → Holds found c → IsWithin net.now c) }
    ensures row { IfOk result (λ found. (row : List Config) × IsRow row (Holds found)) }
{
    let lowered = set.lowered(alloc, states)?;
    let found = framed_rest(alloc, net, lowered.set, lowered.groups.as_slice())?;
    Ok(found)
}

/// The framed start set of a decision.
pub fn framed_start(
    alloc: Global,
    net: &ParserNetwork,
    decision: u32,
    allowed: &Allowed,
) -> Result<Configs, AllocError>
    requires well_formed { WellFormed net.now }
    requires few { length net.now.states ≤ MOST_STATES }
    ensures members { IfOk result (λ found. Same (Holds found) (FramedStart net.now decision (Allows allowed.now))) }
    ensures within { IfOk result (λ found. (c : Config) → Holds found c → IsWithin net.now c) }
    ensures row { IfOk result (λ found. (row : List Config) × IsRow row (Holds found)) }
{
    let mut set = Configs::new(alloc)?;
    let stacks = set.bottom(&[], false)?;
    let firsts = first_groups(alloc, alternatives(net, decision), allowed, stacks)?;
    let found = framed_rest(alloc, net, set, firsts.as_slice())?;
    Ok(found)
}

/// The step of a framed set by a symbol.
pub fn framed_advance(
    alloc: Global,
    net: &ParserNetwork,
    set: Configs,
    symbol: u32,
) -> Result<Configs, AllocError>
    requires well_formed { WellFormed net.now }
    requires few { length net.now.states ≤ MOST_STATES }
    requires within { (c : Config) → Holds set c → IsWithin net.now c }
    ensures members { IfOk result (λ found. Same (Holds found) (FramedNext net.now (Holds set) symbol)) }
    ensures within { IfOk result (λ found. (c : Config) → Holds found c → IsWithin net.now c) }
    ensures row { IfOk result (λ found. (row : List Config) × IsRow row (Holds found)) }
{
    let groups = set.groups(alloc)?;
    let firsts = targets(alloc, net, groups.as_slice(), symbol)?;
    let found = framed_rest(alloc, net, set.fresh(), firsts.as_slice())?;
    Ok(found)
}
