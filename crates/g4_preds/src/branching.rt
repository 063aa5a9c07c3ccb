// Where the evaluation of a predicate goes on after each of its nodes, so that it keeps nothing but an index.
ghost use Rattle.std.specs.Prelude.{◌≡◌, [], ◌∷◌, ◌++◌, IfOk, OnOk, drop, if◌then◌else◌};
ghost use Rattle.g4_preds.specs.Branches.{branch_at, branches_of, operand_exits};
ghost use Rattle.g4_preds.specs.Newest.{newest};
ghost use Rattle.g4_preds.specs.Postfix.{postfix, tree_of};

use crate::node::Node;
use g4_base::Sequence;
use std::alloc::{AllocError, Global};
use std::marker::Model;

/// Where evaluation goes on after the predicate that ends at a node: the index of a node, or one past the nodes.
#[derive(Clone, Copy)]
pub struct Branch {
    pub if_true: usize,
    pub if_false: usize,
}

impl Branch {
    /// Where evaluation goes on after this value.
    pub fn target(&self, value: bool) -> usize
        ensures { result ≡ if value then self.now.if_true else self.now.if_false }
    {
        if value { self.if_true } else { self.if_false }
    }
}

/// Where evaluation goes on after a predicate whose end is not reached yet. None is the node directly after it.
#[derive(Clone, Copy)]
pub struct Exit {
    pub if_true: Option<usize>,
    pub if_false: Option<usize>,
}

impl Exit {
    /// The branch of a predicate that ends before this index.
    fn branch(&self, end: usize) -> Branch
        ensures { result ≡ branch_at end self.now }
    {
        Branch {
            if_true: self.if_true.unwrap_or(end),
            if_false: self.if_false.unwrap_or(end),
        }
    }
}

/// The exits of predicates one after another, which contracts see last first.
#[derive(Drop)]
pub struct Exits {
    exits: Vec<Exit>,
}

impl Model for Exits {
    ghost use Rattle.std.specs.Prelude.{List};
    ghost use Rattle.g4_preds.specs.declared.branching.Exit.{Exit};
    ghost use Rattle.g4_preds.specs.Newest.{newest_first};

    ghost Value = { List Exit };

    ghost view = { λ e. newest_first e.exits.items };
}

impl Exits {
    /// None.
    fn new(alloc: Global) -> Self
        ensures { result ≡ [] }
    {
        Exits {
            exits: Vec::new(alloc),
        }
    }

    /// Adds an exit, the last.
    fn push(&mut self, if_true: Option<usize>, if_false: Option<usize>) -> Result<(), AllocError>
        ensures { OnOk result (self.new ≡ record { if_true = if_true; if_false = if_false } ∷ self.old) }
    {
        self.exits.push(Exit { if_true, if_false })?;
        Ok(())
    }

    /// Takes the last away, if there is one.
    fn pop(&mut self) -> Option<Exit>
        ensures last { result ≡ newest self.old }
        ensures rest { self.new ≡ drop 1 self.old }
    {
        let last = self.exits.last().copied();
        let _ = self.exits.pop();
        last
    }

    /// Adds the exits of what a node takes, by the branch of that node.
    fn push_operands(&mut self, node: &Node, branch: Branch) -> Result<(), AllocError>
        ensures { OnOk result (self.new ≡ operand_exits node.now branch ++ self.old) }
    {
        let Branch { if_true, if_false } = branch;
        match node {
            Node::Operand(_) => Ok(()),
            Node::Not => {
                self.push(Some(if_false), Some(if_true))?;
                Ok(())
            }
            Node::And => {
                self.push(None, Some(if_false))?;
                self.push(Some(if_true), Some(if_false))?;
                Ok(())
            }
            Node::Or => {
                self.push(Some(if_true), None)?;
                self.push(Some(if_true), Some(if_false))?;
                Ok(())
            }
        }
    }
}

/// The branches of the nodes of a predicate.
pub fn branches(alloc: Global, nodes: &[Node]) -> Result<Sequence<Branch>, AllocError>
    requires { nodes.now ≡ postfix (tree_of nodes.now) }
    ensures { IfOk result (λ branches. branches ≡ branches_of (tree_of nodes.now)) }
{
    let mut branches = Vec::new(alloc);
    let mut exits = Exits::new(alloc);
    exits.push(Some(nodes.len()), Some(nodes.len() + 1))?;
    let mut end = nodes.len();
    while let Some(exit) = exits.pop() {
        let branch = exit.branch(end);
        end -= 1;
        exits.push_operands(&nodes[end], branch)?;
        branches.push(branch)?;
    }
    branches.reverse();
    Ok(Sequence::new(branches))
}
