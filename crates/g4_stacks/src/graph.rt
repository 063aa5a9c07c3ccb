// The graph.
ghost use Rattle.std.specs.Prelude.{◌≡◌, ◌↔◌, ◌⊎◌, IsTrue, IfOk, IfSome, MatchOption, Some, slice_get, length, max, min};
ghost use Rattle.g4_net.specs.Configurations.{Stack, wildcard};
ghost use Rattle.g4_stacks.specs.Stack.{bottom};
ghost use Rattle.g4_stacks.specs.Graph.{Has, IsNode, Keeps, IsPushed, HasTops};
ghost use Rattle.g4_stacks.specs.Canonical.{IsPlain, IsCanonical, Grows};
ghost use Rattle.g4_stacks.specs.Table.{IsAdded, one_of};
ghost use Rattle.g4_stacks.specs.Merge.{IsPart, IsUnion, tops_of};
ghost use Rattle.g4_stacks.specs.Joining.{IsJoining, IsJoined, Awaits};
ghost use Rattle.g4_stacks.specs.Taking.{fresh};

use crate::content::NodeData;
use crate::joining::Joining;
use crate::next::{Next, next_of};
use crate::table::Table;
use std::alloc::{AllocError, Global};
use std::collections::HashMap;
use std::marker::Model;

/// How many parts of parts are looked at where a node may have all stacks of another.
const MOST_PARTS: u32 = 64;

/// How many merges are kept in each graph.
const KEPT_MERGES: usize = 1024;

/// How many merges more are kept for each node.
const MERGES_FOR_A_NODE: usize = 4;

/// Sets of stacks, each a node, the same set always the same node. Merges are kept, and for each node a part of it: a lower node
/// with some of its stacks, or the empty set.
#[derive(Drop)]
pub struct Graph {
    table: Table,
    merged: HashMap<(u32, u32), u32>,
    parts: Vec<u32>,
    pub(crate) alloc: Global,
}

impl Model for Graph {
    ghost use Rattle.std.specs.Prelude.{List};
    ghost use Rattle.g4_stacks.specs.Graph.{Content};
    ghost use Rattle.g4_stacks.specs.Merge.{IsSound};

    ghost Value = { List Content };

    ghost view = { λ g. g.table };

    ghost invariant = { λ g. IsSound g.table g.merged.entries g.parts.items };
}

impl Graph {
    /// A graph of three sets: none, `$` alone and `#` alone.
    pub fn new(alloc: Global) -> Result<Graph, AllocError>
        ensures { IfOk result (λ g. g ≡ fresh) }
    {
        let mut table = Table::new(alloc);
        table.intern(NodeData::nothing(alloc))?;
        table.intern(NodeData::only_bottom(alloc))?;
        table.intern(NodeData::only_wildcard(alloc))?;
        Ok(Graph {
            table,
            merged: HashMap::new(alloc),
            parts: Vec::new(alloc),
            alloc,
        })
    }

    /// The empty set.
    pub fn empty(&self) -> u32
        ensures known { IsNode self.now result }
        ensures means { (s : Stack) → Has self.now result s → ⊥ }
    {
        let _ = &self.table;
        0
    }

    /// `$` alone.
    pub fn end(&self) -> u32
        ensures known { IsNode self.now result }
        ensures means { (s : Stack) → Has self.now result s ↔ (s ≡ bottom) }
    {
        let _ = &self.table;
        1
    }

    /// `#` alone.
    pub fn wild(&self) -> u32
        ensures known { IsNode self.now result }
        ensures means { (s : Stack) → Has self.now result s ↔ (s ≡ wildcard) }
    {
        let _ = &self.table;
        2
    }

    /// What the nodes hold, by number.
    pub(crate) fn contents(&self) -> &[NodeData]
        ensures { result.now ≡ self.now }
    {
        self.table.contents()
    }

    /// Nothing: the caller learns that the graph is canonical.
    pub fn is_canonical(&self)
        ensures { IsCanonical self.now }
    {
        let _ = &self.table;
    }

    /// Whether two nodes have the same stacks.
    pub fn same(&self, a: u32, b: u32) -> bool
        requires left { IsNode self.now a }
        requires right { IsNode self.now b }
        ensures { IsTrue result ↔ ((s : Stack) → Has self.now a s ↔ Has self.now b s) }
    {
        let _ = &self.table;
        a == b
    }

    /// Whether `$` alone is in the set.
    pub fn has_end(&self, node: u32) -> bool
        requires { IsNode self.now node }
        ensures { IsTrue result ↔ Has self.now node bottom }
    {
        self.table.get(node).end
    }

    /// Whether `#` alone is in the set.
    pub fn has_wild(&self, node: u32) -> bool
        requires { IsNode self.now node }
        ensures { IsTrue result ↔ Has self.now node wildcard }
    {
        self.table.get(node).wild
    }

    /// The states on top, ascending, each with the node of the rests.
    pub fn tops(&self, node: u32) -> &[(u32, u32)]
        requires { IsNode self.now node }
        ensures means { HasTops self.now node result.now }
        ensures read { result.now ≡ tops_of self.now node }
    {
        self.table.get(node).tops.as_slice()
    }

    /// The state on each stack of the node.
    pub fn push(&mut self, node: u32, state: u32) -> Result<u32, AllocError>
        requires { IsNode self.old node }
        ensures keeps { Keeps self.old self.new }
        ensures known { IfOk result (λ n. IsNode self.new n) }
        ensures means { IfOk result (λ n. (s : Stack) → Has self.new n s ↔ IsPushed self.old node state s) }
    {
        let _ = &self.table;
        if node == 0 {
            return Ok(0);
        }
        let result = self.intern_one(node, state)?;
        Ok(result)
    }

    /// The stacks of both nodes.
    pub fn merge(&mut self, a: u32, b: u32) -> Result<u32, AllocError>
        requires left { IsNode self.old a }
        requires right { IsNode self.old b }
        ensures keeps { Keeps self.old self.new }
        ensures known { IfOk result (λ n. IsNode self.new n) }
        ensures means { IfOk result (λ n. IsUnion self.old a b self.new n) }
    {
        let _ = &self.table;
        if let Some(known) = self.known_merge(a, b) {
            return Ok(known);
        }
        self.make_room();
        let result = self.join(a, b)?;
        Ok(result)
    }

    /// The stacks of both nodes, lower nodes first. The merges that wait for one of lower nodes are in a list, the
    /// innermost last.
    #[inline(never)]
    fn join(&mut self, a: u32, b: u32) -> Result<u32, AllocError>
        requires left { IsNode self.old a }
        requires right { IsNode self.old b }
        ensures grows { Grows self.old self.new }
        ensures canonical { IsCanonical self.new }
        ensures known { IfOk result (λ n. IsNode self.new n) }
        ensures means { IfOk result (λ n. IsUnion self.old a b self.new n) }
    {
        let _ = &self.table;
        if let Some(known) = self.known_merge(a, b) {
            return Ok(known);
        }
        let mut waiting: Vec<Joining> = Vec::new(self.alloc);
        let mut current = Joining::new(self.alloc, a, b);
        'merges: loop {
            if let Some((m, n)) = self.advance(&mut current)? {
                waiting.push(current)?;
                current = Joining::new(self.alloc, m, n);
                continue;
            }
            let result = self.finish(current)?;
            match waiting.pop() {
                None => return Ok(result),
                Some(below) => {
                    current = below.resumed(result)?;
                    continue;
                }
            }
        }
    }

    /// Goes on with a merge to the next pair of nodes that has to be merged first, or to the end of both lists.
    fn advance(&self, current: &mut Joining) -> Result<Option<(u32, u32)>, AllocError>
        requires { IsJoining self.now current.old }
        ensures left { current.new.left ≡ current.old.left }
        ensures right { current.new.right ≡ current.old.right }
        ensures found { IfOk result (λ o. MatchOption o (IsJoined self.now current.new)
            (λ p. Awaits self.now current.old.i current.new p.0 p.1)) }
    {
        let _ = &self.table;
        'steps: loop {
            match next_of(
                self.tops(current.left),
                current.i,
                self.tops(current.right),
                current.j,
            ) {
                Next::Done => return Ok(None),
                Next::Left(t, m) => {
                    current.tops.push((t, m))?;
                    current.i += 1;
                    continue;
                }
                Next::Right(t, n) => {
                    current.tops.push((t, n))?;
                    current.j += 1;
                    continue;
                }
                Next::Both(t, m, n) => {
                    current.i += 1;
                    current.j += 1;
                    if let Some(both) = self.known_merge(m, n) {
                        current.tops.push((t, both))?;
                        continue;
                    }
                    current.state = t;
                    return Ok(Some((m, n)));
                }
            }
        }
    }

    /// The node of a merge that has all its tops.
    fn finish(&mut self, done: Joining) -> Result<u32, AllocError>
        requires { IsJoined self.old done }
        ensures grows { Grows self.old self.new }
        ensures canonical { IsCanonical self.new }
        ensures known { IfOk result (λ n. IsNode self.new n) }
        ensures means { IfOk result (λ n. IsUnion self.new done.left done.right self.new n) }
    {
        let _ = &self.table;
        let left = done.left;
        let right = done.right;
        let end = self.either_end(left, right);
        let wild = self.either_wild(left, right);
        let result = self.intern(NodeData {
            end,
            wild,
            tops: done.tops,
        })?;
        self.keep_merged(left, right, result)?;
        let (low, _) = ordered(left, right);
        self.note_part(result, low)?;
        Ok(result)
    }

    /// The node of both, where they are equal, one is empty, one is known to have the stacks of the other, or they were merged before.
    fn known_merge(&self, a: u32, b: u32) -> Option<u32>
        requires left { IsNode self.now a }
        requires right { IsNode self.now b }
        ensures known { IfSome result (λ n. IsNode self.now n) }
        ensures means { IfSome result (λ n. IsUnion self.now a b self.now n) }
    {
        let _ = &self.table;
        if a == b {
            return Some(a);
        }
        if a == 0 {
            return Some(b);
        }
        if b == 0 {
            return Some(a);
        }
        if let Some(larger) = self.larger(a, b) {
            return Some(larger);
        }
        self.merged_before(a, b)
    }

    /// The one of the two that is known to have all stacks of the other, if one is.
    fn larger(&self, a: u32, b: u32) -> Option<u32>
        requires left { IsNode self.now a }
        requires right { IsNode self.now b }
        ensures known { IfSome result (λ n. IsNode self.now n) }
        ensures means { IfSome result (λ n. IsUnion self.now a b self.now n) }
    {
        if self.has_all(a, b) {
            return Some(a);
        }
        if self.has_all(b, a) {
            return Some(b);
        }
        None
    }

    /// Whether the node is known to have all stacks of another.
    fn has_all(&self, node: u32, part: u32) -> bool
        requires node { IsNode self.now node }
        requires part { IsNode self.now part }
        ensures { IsTrue result → IsPart self.now node part }
    {
        if self.has_one(node, part) {
            return true;
        }
        let found = self.has_part(node, part);
        found
    }

    /// Whether another node has one top and no mark, and the node has the same top.
    fn has_one(&self, node: u32, part: u32) -> bool
        requires node { IsNode self.now node }
        requires part { IsNode self.now part }
        ensures { IsTrue result → IsPart self.now node part }
    {
        match self.table.get(part).only_top() {
            Some((state, below)) => self.table.get(node).has_top(state, below),
            None => false,
        }
    }

    /// Whether the node is known to have all stacks of a lower one: a part of it, or a part of a part.
    fn has_part(&self, node: u32, part: u32) -> bool
        ensures { IsTrue result → IsPart self.now node part }
    {
        let mut at = node;
        for _ in 0..MOST_PARTS {
            if at == part {
                return true;
            }
            if at < part {
                return false;
            }
            at = self.part_of(at);
        }
        false
    }

    /// The part of the node: the empty set where none is noted.
    fn part_of(&self, node: u32) -> u32
        ensures { IsPart self.now node result }
    {
        match self.parts.get(node as usize) {
            Some(part) => *part,
            None => 0,
        }
    }

    /// The node that the two were merged to before, if they were.
    fn merged_before(&self, a: u32, b: u32) -> Option<u32>
        ensures known { IfSome result (λ n. IsNode self.now n) }
        ensures means { IfSome result (λ n. IsUnion self.now a b self.now n) }
    {
        self.merged.get(&ordered(a, b)).copied()
    }

    /// Keeps what two nodes were merged to.
    fn keep_merged(&mut self, a: u32, b: u32, node: u32) -> Result<(), AllocError>
        requires left { IsNode self.old a }
        requires right { IsNode self.old b }
        requires known { IsNode self.old node }
        requires means { IsUnion self.old a b self.old node }
        ensures { self.new ≡ self.old }
    {
        self.merged.insert(ordered(a, b), node)?;
        Ok(())
    }

    /// Notes a part of a node that is newer than those of which a part is noted, if it is a lower node.
    fn note_part(&mut self, node: u32, part: u32) -> Result<(), AllocError>
        requires node { IsNode self.old node }
        requires part { IsNode self.old part }
        requires has { IsPart self.old node part }
        ensures { self.new ≡ self.old }
    {
        if (node as usize) < self.parts.len() || node <= part {
            return Ok(());
        }
        self.parts.resize(node as usize, 0)?;
        self.parts.push(part)?;
        Ok(())
    }

    /// Forgets the merges where they are many more than the nodes, which keeps the memory in proportion to them. Only between two
    /// merges: one that is under way takes each pair of nodes once.
    fn make_room(&mut self)
        ensures { self.new ≡ self.old }
    {
        let spare = self.merged.len().saturating_sub(KEPT_MERGES);
        if spare / MERGES_FOR_A_NODE > self.table.len() {
            self.merged.clear();
        }
    }

    /// Whether `$` alone is in a set of the two.
    fn either_end(&self, a: u32, b: u32) -> bool
        requires left { IsNode self.now a }
        requires right { IsNode self.now b }
        ensures { IsTrue result ↔ (Has self.now a bottom ⊎ Has self.now b bottom) }
    {
        self.has_end(a) || self.has_end(b)
    }

    /// Whether `#` alone is in a set of the two.
    fn either_wild(&self, a: u32, b: u32) -> bool
        requires left { IsNode self.now a }
        requires right { IsNode self.now b }
        ensures { IsTrue result ↔ (Has self.now a wildcard ⊎ Has self.now b wildcard) }
    {
        self.has_wild(a) || self.has_wild(b)
    }

    /// The node that holds this, a new one where there is none.
    pub(crate) fn intern(&mut self, wanted: NodeData) -> Result<u32, AllocError>
        requires { IsPlain (length self.old) wanted }
        ensures grows { Grows self.old self.new }
        ensures canonical { IsCanonical self.new }
        ensures added { IfOk result (λ _. IsAdded self.old wanted self.new) }
        ensures holds { IfOk result (λ n. slice_get self.new n ≡ Some wanted) }
    {
        let result = self.table.intern(wanted)?;
        Ok(result)
    }

    /// The node that holds the state on another, a new one where there is none.
    fn intern_one(&mut self, node: u32, state: u32) -> Result<u32, AllocError>
        requires { IsPlain (length self.old) (one_of state node) }
        ensures grows { Grows self.old self.new }
        ensures canonical { IsCanonical self.new }
        ensures holds { IfOk result (λ n. slice_get self.new n ≡ Some (one_of state node)) }
    {
        let result = self.table.intern_one(state, node)?;
        Ok(result)
    }
}

/// The two with the lesser first: merges are kept under this key.
fn ordered(a: u32, b: u32) -> (u32, u32)
    ensures { (result.0 ≡ min a b) × (result.1 ≡ max a b) }
{
    if a <= b { (a, b) } else { (b, a) }
}
