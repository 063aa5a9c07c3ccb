// Sets with a hole in the place of the parser's stack: its return states are put there as far as they are needed.
ghost use Rattle.std.specs.Prelude.{◌≡◌, ◌<◌, ◌≤◌, ◌+◌, All, IfOk, IsTrue, false, length, reverse};
ghost use Rattle.g4_configs.specs.Configs.{Holds, IsOfGroup, IsStacks};
ghost use Rattle.g4_frames.specs.Framed.{IsAtHole, IsDown, IsFramed};
ghost use Rattle.g4_full.specs.Places.{IsLoweredTo, IsTakenDown, ends_by};
ghost use Rattle.g4_net.specs.Configurations.{Config, IsWithin};
ghost use Rattle.g4_net.specs.declared.network.TheConstants.{MOST_STATES};
ghost use Rattle.g4_net.specs.Leads.{WellFormed};
ghost use Rattle.g4_net.specs.Network.{state_at};

use g4_closure::lower;
use g4_configs::{Configs, Group};
use g4_net::{ParserNetwork, State};
use std::alloc::{AllocError, Global};

/// How many times as many return states are put in the place of the hole where those before were too few.
const GROWTH: usize = 4;

/// A set, the return states that are below its hole, newest last, and how many were put in its place the last time.
#[derive(Drop)]
pub(crate) struct Place<'a> {
    pub(crate) set: Configs,
    pub(crate) below: &'a [u32],
    pub(crate) taken: usize,
}

/// Whether the state is a rule's end.
fn is_end(net: &ParserNetwork, state: u32) -> bool
    ensures { result ≡ ends_by (state_at net.now state) }
{
    match net.states.as_slice().get(state as usize) {
        Some(State::End(_)) => true,
        _ => false,
    }
}

/// Whether one of the group is at the hole.
fn has_hole(net: &ParserNetwork, set: &Configs, group: Group) -> bool
    requires { IsStacks set.now group.stacks }
    ensures { result ≡ false → (c : Config) → IsOfGroup set.now group c → IsAtHole net.now c → ⊥ }
{
    if !is_end(net, group.state) {
        return false;
    }
    set.has_end(group.stacks)
}

/// Whether something is at the hole.
pub(crate) fn is_at_hole(
    alloc: Global,
    net: &ParserNetwork,
    set: &Configs,
) -> Result<bool, AllocError>
    ensures { IfOk result (λ found. found ≡ false → (c : Config) → Holds set.now c → IsAtHole net.now c → ⊥) }
{
    let groups = set.groups(alloc)?;
    for group in groups.as_slice() {
        if has_hole(net, set, *group) {
            return Ok(true);
        }
    }
    Ok(false)
}

/// Whether a set is taken down: nothing is at the hole, or no return state is below it.
fn is_down(
    alloc: Global,
    net: &ParserNetwork,
    set: &Configs,
    below: &[u32],
) -> Result<bool, AllocError>
    ensures down { IfOk result (λ down. IsTrue down → IsDown net.now (Holds set.now) (reverse below.now)) }
    ensures some { IfOk result (λ down. down ≡ false → 0 < length below.now) }
{
    if below.is_empty() {
        return Ok(true);
    }
    let found = is_at_hole(alloc, net, set)?;
    Ok(!found)
}

/// How many of all return states are left below the hole at the next try, where so many were put in its place at the last one: four
/// times as many are put there now, and one more. Where it was more than a sixteenth of all, all are put there: so the tries before
/// the last one cost little beside it.
fn left_below(all: usize, taken: usize) -> usize
    ensures { taken < all → result + taken < all }
{
    if taken > all / GROWTH / GROWTH {
        return 0;
    }
    all.saturating_sub(GROWTH * taken + 1)
}

/// How many of all return states would be left below the hole if as many were put in its place as the last time, but one is left.
fn left_before(all: usize, taken: usize) -> usize
    ensures some { 0 < all → 0 < result }
    ensures within { result ≤ all }
{
    all - taken.min(all.saturating_sub(1))
}

/// Puts return states in the place of the hole while something is there: more each time, in the place of the first hole, so that no
/// set is made from one that was lowered before. It begins with more than the last time, so that a decision is lowered a few times only.
fn lower_all<'a>(
    alloc: Global,
    net: &ParserNetwork,
    from: Configs,
    returns: &'a [u32],
    taken: usize,
) -> Result<Place<'a>, AllocError>
    requires well_formed { WellFormed net.now }
    requires few { length net.now.states ≤ MOST_STATES }
    requires states { All (λ t. t < length net.now.states) returns.now }
    requires framed { IsFramed net.now (Holds from) }
    requires within { (c : Config) → Holds from c → IsWithin net.now c }
    ensures { IfOk result (λ p. IsLoweredTo net.now (Holds from) (reverse returns.now) (Holds p.set) p.below.now) }
{
    if is_down(alloc, net, &from, returns)? {
        return Ok(Place {
            set: from,
            below: returns,
            taken,
        });
    }
    let all = returns.len();
    let mut left = left_before(all, taken);
    'tries: loop {
        left = left_below(all, all - left);
        let (below, above) = returns.split_at(left);
        let set = lower(alloc, net, &from, above)?;
        if is_down(alloc, net, &set, below)? {
            return Ok(Place {
                set,
                below,
                taken: above.len(),
            });
        }
    }
}

/// Takes a framed set down: nothing is at the hole then, or no return state is left. What is not kept is left out. The last time so
/// many return states were taken.
pub(crate) fn take_down<'a>(
    alloc: Global,
    net: &ParserNetwork,
    from: Configs,
    returns: &'a [u32],
    taken: usize,
) -> Result<Place<'a>, AllocError>
    requires well_formed { WellFormed net.now }
    requires few { length net.now.states ≤ MOST_STATES }
    requires states { All (λ t. t < length net.now.states) returns.now }
    requires framed { IsFramed net.now (Holds from) }
    requires within { (c : Config) → Holds from c → IsWithin net.now c }
    ensures { IfOk result (λ p. IsTakenDown net.now (Holds from) (reverse returns.now) (Holds p.set) p.below.now) }
{
    let mut place = lower_all(alloc, net, from, returns, taken)?;
    place.set.keep(net);
    Ok(place)
}
