// What the alternatives of a set have in common.
ghost use Rattle.std.specs.Prelude.{◌≡◌, ◌≢◌, ◌<◌, ◌↔◌, ℕ, All, IsTrue, IfOk, MatchOption, Some, AllPairs, Contains, length, map};
ghost use Rattle.g4_configs.specs.Configs.{Holds};
ghost use Rattle.g4_configs.specs.Groups.{ComesBefore, node_at};
ghost use Rattle.g4_configs.specs.declared.group.Group.{Group};
ghost use Rattle.g4_net.specs.Configurations.{Config};
ghost use Rattle.g4_configs.specs.Verdicts.{AreAlike, Follows, HasAlternative, HasEqualNeighbours, HasTwice, IsLike, IsLone, pair_of};
ghost use Rattle.g4_net.specs.Lookahead.{Alike, Conflict, IsEmpty, IsLeast, IsOnly, LoneState};

use crate::configs::Configs;
use crate::group::Group;
use crate::ordered::{groups_in, in_order};
use std::alloc::{AllocError, Global};
use std::collections::HashMap;

impl Configs {
    /// The least alternative: none where there is no configuration.
    pub fn least_alternative(&self) -> Option<u32>
        ensures { MatchOption result (IsEmpty (Holds self.now)) (IsLeast (Holds self.now)) }
    {
        self.graph.is_canonical();
        self.nodes.keys().map(|(_, alternative)| *alternative).min()
    }

    /// The one alternative of all configurations: none where there is no configuration, or more than one alternative.
    pub fn single_alternative(&self) -> Option<u32>
        ensures { MatchOption result ((i : ℕ) → IsOnly (Holds self.now) i → ⊥) (IsOnly (Holds self.now)) }
    {
        let least = self.least_alternative()?;
        if self.has_other(least) {
            None
        } else {
            Some(least)
        }
    }

    /// Whether some configuration is of another alternative.
    fn has_other(&self, alternative: u32) -> bool
        ensures { IsTrue result ↔ ((c : Config) × Holds self.now c × (c.alt ≢ alternative)) }
    {
        self.graph.is_canonical();
        self.nodes.keys().any(|(_, other)| *other != alternative)
    }

    /// Whether at some state two alternatives have the same stacks.
    pub fn conflict(&self, alloc: Global) -> Result<bool, AllocError>
        ensures { IfOk result (λ answer. IsTrue answer ↔ Conflict (Holds self.now)) }
    {
        self.graph.is_canonical();
        let groups = self.groups(alloc)?;
        let mut pairs = pairs_of(alloc, &groups)?;
        let answer = has_twice(&mut pairs);
        Ok(answer)
    }

    /// Whether some state belongs to one alternative alone.
    pub fn lone_state(&self, alloc: Global) -> Result<bool, AllocError>
        ensures { IfOk result (λ answer. IsTrue answer ↔ LoneState (Holds self.now)) }
    {
        self.graph.is_canonical();
        let entries = in_order(alloc, &self.nodes)?;
        let groups = groups_in(alloc, &entries)?;
        let answer = has_lone(&groups);
        Ok(answer)
    }

    /// Whether two alternatives or more are left, and at each state all of them have the same stacks.
    pub fn alike(&self, alloc: Global) -> Result<bool, AllocError>
        ensures { IfOk result (λ answer. IsTrue answer ↔ Alike (Holds self.now)) }
    {
        self.graph.is_canonical();
        let Some(least) = self.least_alternative() else {
            return Ok(false);
        };
        if !self.has_other(least) {
            return Ok(false);
        }
        let groups = self.groups(alloc)?;
        let answer = are_alike(alloc, &self.nodes, &groups)?;
        Ok(answer)
    }
}

/// The state and the stacks of each group.
fn pairs_of(alloc: Global, groups: &[Group]) -> Result<Vec<(u32, u32)>, AllocError>
    ensures { IfOk result (λ pairs. pairs.items ≡ map pair_of groups.now) }
{
    groups
        .iter()
        .map(|group| (group.state, group.stacks))
        .collect(alloc)
}

/// Whether some pair appears twice. The pairs are sorted.
fn has_twice(pairs: &mut Vec<(u32, u32)>) -> bool
    ensures { IsTrue result ↔ HasTwice pairs.old.items }
{
    pairs.sort_unstable();
    has_equal_neighbours(pairs)
}

/// Whether two pairs that are equal are neighbours.
fn has_equal_neighbours(pairs: &[(u32, u32)]) -> bool
    ensures { IsTrue result ↔ HasEqualNeighbours pairs.now }
{
    for i in 1..pairs.len() {
        if pairs[i - 1] == pairs[i] {
            return true;
        }
    }
    false
}

/// Whether some group is the only one of its state.
fn has_lone(groups: &[Group]) -> bool
    requires { AllPairs ComesBefore groups.now }
    ensures { IsTrue result ↔ ((i : ℕ) × (i < length groups.now) × IsLone groups.now i) }
{
    for index in 0..groups.len() {
        if is_lone(groups, index) {
            return true;
        }
    }
    false
}

/// Whether the group at the index is the only one of its state: its neighbours are of other states.
fn is_lone(groups: &[Group], index: usize) -> bool
    requires ascending { AllPairs ComesBefore groups.now }
    requires within { index < length groups.now }
    ensures { IsTrue result ↔ IsLone groups.now index }
{
    !follows(groups, index) && !follows(groups, index + 1)
}

/// Whether there is a group at the index, and the one before it is of its state.
fn follows(groups: &[Group], index: usize) -> bool
    ensures { IsTrue result ↔ Follows groups.now index }
{
    index > 0 && index < groups.len() && groups[index - 1].state == groups[index].state
}

/// Whether at the state of each group all alternatives have its stacks.
fn are_alike(
    alloc: Global,
    nodes: &HashMap<(u32, u32), u32>,
    groups: &[Group],
) -> Result<bool, AllocError>
    requires { (x : Group) → Contains groups.now x ↔ (node_at nodes.now.entries (x.state, x.alternative) ≡ Some x.stacks) }
    ensures { IfOk result (λ answer. IsTrue answer ↔ AreAlike nodes.now.entries groups.now) }
{
    let Some(first) = groups.first().copied() else {
        return Ok(true);
    };
    let others: Vec<Group> = groups
        .iter()
        .copied()
        .filter(|group| group.state == first.state)
        .collect(alloc)?;
    let answer = all_like(nodes, groups, first, &others);
    Ok(answer)
}

/// Whether each group is like the first one, as `is_like` says.
fn all_like(
    nodes: &HashMap<(u32, u32), u32>,
    groups: &[Group],
    first: Group,
    others: &[Group],
) -> bool
    ensures { IsTrue result ↔ All (IsLike nodes.now.entries first others.now) groups.now }
{
    groups
        .iter()
        .all(|group| is_like(nodes, *group, first, others))
}

/// Whether the first state has the group's alternative, and the group's state the first alternative, with its stacks. Where
/// the group is of the first alternative, its state has each alternative of the first state, with the same stacks.
fn is_like(nodes: &HashMap<(u32, u32), u32>, group: Group, first: Group, others: &[Group]) -> bool
    ensures { IsTrue result ↔ IsLike nodes.now.entries first others.now group }
{
    if !has(nodes, group.state, first.alternative, group.stacks) {
        return false;
    }
    if !has(nodes, first.state, group.alternative, first.stacks) {
        return false;
    }
    group.alternative != first.alternative || has_each(nodes, group, others)
}

/// Whether the group's state has each alternative of the others, with its stacks.
fn has_each(nodes: &HashMap<(u32, u32), u32>, group: Group, others: &[Group]) -> bool
    ensures { IsTrue result ↔ All (HasAlternative nodes.now.entries group.state group.stacks) others.now }
{
    others.iter().all(|other| has(nodes, group.state, other.alternative, group.stacks))
}

/// Whether the state and the alternative have these stacks.
fn has(nodes: &HashMap<(u32, u32), u32>, state: u32, alternative: u32, stacks: u32) -> bool
    ensures { IsTrue result ↔ (node_at nodes.now.entries (state, alternative) ≡ Some stacks) }
{
    match nodes.get(&(state, alternative)).copied() {
        Some(node) => node == stacks,
        None => false,
    }
}
