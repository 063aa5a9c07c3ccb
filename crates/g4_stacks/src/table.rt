// Contents, each once, found by value.
ghost use Rattle.std.specs.Prelude.{◌≡◌, ◌<◌, [], IfOk, OnErr, Some, slice_get, length};
ghost use Rattle.g4_stacks.specs.Table.{IsAdded, IsOne, one_of};

use crate::content::NodeData;
use std::alloc::{AllocError, Global};
use std::collections::{BTreeMap, HashMap};
use std::marker::Model;

/// The contents of nodes, each once. A content with one top and no mark, as most are, is found by that top. Only of the
/// others is there a copy in a map: 8 bytes more for each of their tops, and 32 for the content.
#[derive(Drop)]
pub struct Table {
    nodes: Vec<NodeData>,
    ones: HashMap<(u32, u32), u32>,
    index: BTreeMap<(bool, bool, Vec<(u32, u32)>), u32>,
    alloc: Global,
}

impl Model for Table {
    ghost use Rattle.std.specs.Prelude.{List};
    ghost use Rattle.g4_stacks.specs.Graph.{Content};
    ghost use Rattle.g4_stacks.specs.Table.{IsTable};

    ghost Value = { List Content };

    ghost view = { λ t. t.nodes.items };

    ghost invariant = { λ t. IsTable t.nodes.items t.ones.entries t.index };
}

impl Table {
    /// No contents.
    pub fn new(alloc: Global) -> Table
        ensures { result ≡ [] }
    {
        Table {
            nodes: Vec::new(alloc),
            ones: HashMap::new(alloc),
            index: BTreeMap::new(alloc),
            alloc,
        }
    }

    /// How many there are.
    pub fn len(&self) -> usize
        ensures { result ≡ length self.now }
    {
        self.nodes.len()
    }

    /// All, by number.
    pub fn contents(&self) -> &[NodeData]
        ensures { result.now ≡ self.now }
    {
        self.nodes.as_slice()
    }

    /// The content of this number.
    pub fn get(&self, n: u32) -> &NodeData
        requires { n < length self.now }
        ensures { slice_get self.now n ≡ Some result.now }
    {
        &self.nodes[n as usize]
    }

    /// The number of the content, a new one where it has none.
    pub fn intern(&mut self, wanted: NodeData) -> Result<u32, AllocError>
        ensures added { IfOk result (λ _. IsAdded self.old wanted self.new) }
        ensures holds { IfOk result (λ n. slice_get self.new n ≡ Some wanted) }
        ensures unchanged { OnErr result (self.new ≡ self.old) }
    {
        match wanted.only_top() {
            Some((state, node)) => {
                let number = self.intern_one(state, node)?;
                Ok(number)
            }
            None => {
                let number = self.intern_other(wanted)?;
                Ok(number)
            }
        }
    }

    /// The number of the content with this one top, a new one where it has none.
    pub fn intern_one(&mut self, state: u32, node: u32) -> Result<u32, AllocError>
        ensures added { IfOk result (λ _. IsAdded self.old (one_of state node) self.new) }
        ensures holds { IfOk result (λ n. slice_get self.new n ≡ Some (one_of state node)) }
        ensures unchanged { OnErr result (self.new ≡ self.old) }
    {
        let found = self.ones.get(&(state, node)).copied();
        if let Some(n) = found {
            return Ok(n);
        }
        let n = self.nodes.len();
        if n >= u32::MAX as usize {
            return Err(AllocError);
        }
        let held = NodeData::one(self.alloc, state, node)?;
        self.nodes.reserve(1)?;
        self.ones.insert((state, node), n as u32)?;
        self.nodes.push_reserved(held);
        Ok(n as u32)
    }

    /// The number of a content with a mark or another number of tops.
    fn intern_other(&mut self, wanted: NodeData) -> Result<u32, AllocError>
        requires { IsOne wanted → ⊥ }
        ensures added { IfOk result (λ _. IsAdded self.old wanted self.new) }
        ensures holds { IfOk result (λ n. slice_get self.new n ≡ Some wanted) }
        ensures unchanged { OnErr result (self.new ≡ self.old) }
    {
        let key = (wanted.end, wanted.wild, wanted.tops);
        let found = self.index.get(&key).copied();
        if let Some(n) = found {
            return Ok(n);
        }
        let n = self.nodes.len();
        if n >= u32::MAX as usize {
            return Err(AllocError);
        }
        let tops = key.2.as_slice().to_vec(self.alloc)?;
        let held = NodeData {
            end: key.0,
            wild: key.1,
            tops,
        };
        self.nodes.reserve(1)?;
        self.index.insert(key, n as u32)?;
        self.nodes.push_reserved(held);
        Ok(n as u32)
    }
}
