// What is left of a decision's alternatives after a symbol.
ghost use Rattle.std.specs.Prelude.{◌≡◌, ◌≤◌, ◌↔◌, All, IfOk, IsTrue, List, MatchOption, length};
ghost use Rattle.g4_closure.specs.Left.{IsLeft};
ghost use Rattle.g4_configs.specs.Configs.{Holds};
ghost use Rattle.g4_configs.specs.Groups.{AreKnown, InSome};
ghost use Rattle.g4_net.specs.Configurations.{Config, IsRow, IsWithin};
ghost use Rattle.g4_net.specs.declared.network.TheConstants.{MOST_STATES};
ghost use Rattle.g4_net.specs.Leads.{WellFormed};
ghost use Rattle.g4_net.specs.Lookahead.{IsOnly, Next, Rest};
ghost use Rattle.g4_net.specs.Network.{ParserNetwork as Net};

use crate::ahead::goes_on;
use crate::lookahead::{rest, targets};
use g4_configs::{Configs, Group};
use g4_net::ParserNetwork;
use std::alloc::{AllocError, Global};

/// What is left of a decision's alternatives in a set of configurations.
#[derive(Drop)]
pub enum Left {
    /// None of them.
    Nothing,
    /// One.
    Only(u32),
    /// Several, in this set.
    Several(Configs),
}

/// Whether all of the groups are of the alternative.
fn are_of(groups: &[Group], alternative: u32) -> bool
    ensures { IsTrue result ↔ All (λ x. x.alternative ≡ alternative) groups.now }
{
    groups.iter().all(|group| group.alternative == alternative)
}

/// The one alternative of what the groups lead to, where that can be decided without making the set.
fn sole_alternative(net: &ParserNetwork, set: &Configs, groups: &[Group]) -> Option<u32>
    requires well_formed { WellFormed net.now }
    requires few { length net.now.states ≤ MOST_STATES }
    requires known { AreKnown set.now.graph groups.now }
    ensures { MatchOption result (Unit {0}) (IsOnly (Rest net.now (InSome set.now.graph groups.now))) }
{
    let first = groups.first().copied()?;
    if !are_of(groups, first.alternative) || !goes_on(net, set, first) {
        return None;
    }
    Some(first.alternative)
}

/// What is left in a set.
fn left_in(set: Configs) -> Left
    requires row { (row : List Config) × IsRow row (Holds set) }
    ensures { (net : Net) → ((c : Config) → Holds set c → IsWithin net c) → IsLeft net (Holds set) result }
{
    if set.least_alternative().is_none() {
        return Left::Nothing;
    }
    match set.single_alternative() {
        Some(alternative) => Left::Only(alternative),
        None => Left::Several(set),
    }
}

/// What is left after a symbol. Where all edges that take it are of one alternative, it is mostly found without the next set.
pub fn left_after(
    alloc: Global,
    net: &ParserNetwork,
    set: Configs,
    symbol: u32,
) -> Result<Left, AllocError>
    requires well_formed { WellFormed net.now }
    requires few { length net.now.states ≤ MOST_STATES }
    requires within { (c : Config) → Holds set c → IsWithin net.now c }
    ensures { IfOk result (IsLeft net.now (Next net.now (Holds set) symbol)) }
{
    let groups = set.groups(alloc)?;
    let found = targets(alloc, net, groups.as_slice(), symbol)?;
    let firsts = found.as_slice();
    if firsts.is_empty() {
        return Ok(Left::Nothing);
    }
    if let Some(alternative) = sole_alternative(net, &set, firsts) {
        return Ok(Left::Only(alternative));
    }
    let next = rest(alloc, net, set.fresh(), firsts)?;
    Ok(left_in(next))
}
