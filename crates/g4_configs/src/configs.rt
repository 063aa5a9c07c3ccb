// A set of configurations.
ghost use Rattle.std.specs.Prelude.{◌≡◌, ◌↔◌, ◌⊎◌, [], IsTrue, IfOk, IfNone, IfSome, OnErr, OnOk, false, length, reverse};
ghost use Rattle.g4_configs.specs.Configs.{AreGroups, IsOfGroup, HasStack, Holds, IsStacks, KeepsStacks};
ghost use Rattle.g4_configs.specs.Groups.{Subset, group_of};
ghost use Rattle.g4_net.specs.Configurations.{Config, Stack, above_bottom, config, wildcard};
ghost use Rattle.g4_stacks.specs.Canonical.{IsCanonical};
ghost use Rattle.g4_stacks.specs.Graph.{HasTops, IsPushed};

use crate::bottom::bottom;
use crate::group::Group;
use crate::merging::listed;
use crate::set::add;
use g4_stacks::Graph;
use std::alloc::{AllocError, Global};
use std::collections::HashMap;
use std::marker::Model;

/// How many states and alternatives a new set has room for. Most sets that are made have fewer.
const ROOM: usize = 64;

/// A set of configurations: for each state and alternative a set of stacks. Sets of stacks go by numbers, which are of use
/// with this set and with those that are made of it.
#[derive(Drop)]
pub struct Configs {
    pub(crate) graph: Graph,
    pub(crate) nodes: HashMap<(u32, u32), u32>,
}

impl Model for Configs {
    ghost use Rattle.g4_configs.specs.Configs.{View};
    ghost use Rattle.g4_configs.specs.Groups.{AreNodes};

    ghost Value = { View };

    ghost view = { λ c. record { graph = c.graph; nodes = c.nodes.entries } };

    ghost invariant = { λ c. AreNodes c.graph c.nodes.entries };
}

impl Configs {
    /// The empty set.
    pub fn new(alloc: Global) -> Result<Configs, AllocError>
        ensures { IfOk result (λ set. (c : Config) → Holds set c → ⊥) }
    {
        Ok(Configs {
            graph: Graph::new(alloc)?,
            nodes: HashMap::with_capacity(alloc, ROOM)?,
        })
    }

    /// The empty set, with the sets of stacks of this one.
    pub fn fresh(mut self) -> Configs
        ensures empty { (c : Config) → Holds result c → ⊥ }
        ensures keeps { KeepsStacks self result }
    {
        self.nodes.clear();
        self
    }

    /// Takes all configurations out. The sets of stacks stay.
    pub fn clear(&mut self)
        ensures empty { (c : Config) → Holds self.new c → ⊥ }
        ensures keeps { KeepsStacks self.old self.new }
    {
        self.nodes.clear();
    }

    /// Nothing: the caller learns that the graph of the stacks is canonical.
    pub fn is_canonical(&self)
        ensures { IsCanonical self.now.graph }
    {
        self.graph.is_canonical();
    }

    /// The wildcard alone.
    pub fn wild(&self) -> u32
        ensures known { IsStacks self.now result }
        ensures means { (s : Stack) → HasStack self.now result s ↔ (s ≡ wildcard) }
    {
        self.graph.wild()
    }

    /// One stack: these return states, newest last, above the wildcard or above the bottom of the parser's stack.
    pub fn bottom(&mut self, returns: &[u32], wild: bool) -> Result<u32, AllocError>
        ensures keeps { KeepsStacks self.old self.new }
        ensures same { (c : Config) → Holds self.new c ↔ Holds self.old c }
        ensures known { IfOk result (λ stacks. IsStacks self.new stacks) }
        ensures means { IfOk result (λ stacks. (s : Stack)
            → HasStack self.new stacks s ↔ (s ≡ record { returns = reverse returns.now; wild = wild })) }
    {
        let stacks = bottom(&mut self.graph, returns, wild)?;
        Ok(stacks)
    }

    /// The state on each stack of the set.
    pub fn push(&mut self, stacks: u32, state: u32) -> Result<u32, AllocError>
        requires { IsStacks self.old stacks }
        ensures keeps { KeepsStacks self.old self.new }
        ensures same { (c : Config) → Holds self.new c ↔ Holds self.old c }
        ensures known { IfOk result (λ n. IsStacks self.new n) }
        ensures means { IfOk result (λ n. (s : Stack) → HasStack self.new n s ↔ IsPushed self.old.graph stacks state s) }
    {
        let result = self.graph.push(stacks, state)?;
        Ok(result)
    }

    /// Whether the wildcard alone is one of the stacks.
    pub fn has_wild(&self, stacks: u32) -> bool
        requires { IsStacks self.now stacks }
        ensures { IsTrue result ↔ HasStack self.now stacks wildcard }
    {
        self.graph.has_wild(stacks)
    }

    /// Whether the bottom of the parser's stack alone is one of the stacks.
    pub fn has_end(&self, stacks: u32) -> bool
        requires { IsStacks self.now stacks }
        ensures { IsTrue result ↔ HasStack self.now stacks (above_bottom []) }
    {
        self.graph.has_end(stacks)
    }

    /// The states on top of the stacks, ascending, each with the set of what is below it.
    pub fn tops(&self, stacks: u32) -> &[(u32, u32)]
        requires { IsStacks self.now stacks }
        ensures { HasTops self.now.graph stacks result.now }
    {
        self.graph.tops(stacks)
    }

    /// Adds a group: whether the set grew.
    pub fn add(&mut self, group: Group) -> Result<bool, AllocError>
        requires { IsStacks self.old group.stacks }
        ensures keeps { KeepsStacks self.old self.new }
        ensures unchanged { OnErr result ((c : Config) → Holds self.new c ↔ Holds self.old c) }
        ensures members { OnOk result ((c : Config) → Holds self.new c ↔ (Holds self.old c ⊎ IsOfGroup self.old group c)) }
        ensures grew { IfOk result (λ more. (more ≡ false) ↔ Subset (IsOfGroup self.old group) (Holds self.old)) }
    {
        let grew = add(&mut self.graph, &mut self.nodes, group)?;
        Ok(grew)
    }

    /// The groups of the set, in any order.
    pub fn groups(&self, alloc: Global) -> Result<Vec<Group>, AllocError>
        ensures { IfOk result (λ found. AreGroups self.now found.items) }
    {
        let found = listed(alloc, &self.nodes)?;
        Ok(found)
    }

    /// The stacks of a state and an alternative, if there are some.
    pub fn stacks_at(&self, state: u32, alternative: u32) -> Option<u32>
        ensures known { IfSome result (IsStacks self.now) }
        ensures held { IfSome result (λ n. (c : Config) → IsOfGroup self.now (group_of ((state, alternative), n)) c → Holds self.now c) }
        ensures all { IfSome result (λ n. (s : Stack) → Holds self.now (config state alternative s) → HasStack self.now n s) }
        ensures none { IfNone result ((s : Stack) → Holds self.now (config state alternative s) → ⊥) }
    {
        self.nodes.get(&(state, alternative)).copied()
    }

    /// How many groups the set has.
    pub fn count(&self) -> usize
        ensures { result ≡ length self.now.nodes }
    {
        self.nodes.len()
    }
}
