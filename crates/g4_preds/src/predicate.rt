// The predicate that a text is.
ghost use Rattle.std.specs.Prelude.{◌≡◌, ◌++◌, IfOk, OnOk};
ghost use Rattle.std.specs.Str.{chars};
ghost use Rattle.g4_preds.specs.Answers.{Answers};
ghost use Rattle.g4_preds.specs.Readings.{IsPredicate, IsReading};
ghost use Rattle.g4_preds.specs.Postfix.{postfix, rule_in};
ghost use Rattle.g4_preds.specs.Trees.{rules_of};
ghost use Rattle.g4_preds.specs.Values.{value};

use crate::branching::{Branch, branches};
use crate::fault::Fault;
use crate::nesting::{MOST_NESTED, depth};
use crate::node::{Node, Test};
use crate::parser::parse;
use crate::scanner::scan;
use crate::surroundings::{Surroundings, holds};
use g4_base::{Place, Sequence, Text};
use std::alloc::{AllocError, Global};
use std::marker::Model;

/// Why a text is no predicate.
#[derive(Drop)]
pub enum PredicateFault {
    /// The grammar of predicates does not give the text of the predicate at this place, or more than 256 of its `(` and `!` are open at
    /// once.
    Unknown(Place),
    NoMemory,
}

impl From<AllocError> for PredicateFault {
    ghost use Rattle.std.specs.Prelude.{◌≡◌};
    ghost use Rattle.g4_preds.specs.declared.predicate.PredicateFault.TheVariants.{NoMemory};

    ghost from_gives = { λ _ e. e ≡ NoMemory };

    fn from(_: AllocError) -> Self {
        PredicateFault::NoMemory
    }
}

/// A semantic predicate, which contracts see as its tree. It is kept in postfix order, so no call on it is as deep as the
/// text that it was read from, and with the branches of its evaluation.
#[derive(Drop)]
pub struct Predicate {
    nodes: Sequence<Node>,
    /// Where evaluation goes on after each node.
    branches: Sequence<Branch>,
}

impl Model for Predicate {
    ghost use Rattle.std.specs.Prelude.{◌≡◌};
    ghost use Rattle.g4_preds.specs.contracts.node.Node as node;
    ghost use Rattle.g4_preds.specs.Branches.{branches_of};
    ghost use Rattle.g4_preds.specs.Postfix.{postfix, tree_of};
    ghost use Rattle.g4_preds.specs.TreeCode.{tree_code};
    ghost use Rattle.g4_preds.specs.Trees.{Tree};

    ghost Value = { Tree };

    ghost coded = { tree_code node.the_row.coded };

    ghost view = { λ p. tree_of p.nodes };

    ghost invariant = { λ p. (p.nodes ≡ postfix (tree_of p.nodes)) × (p.branches ≡ branches_of (tree_of p.nodes)) };
}

/// The predicate that the characters are.
fn read_characters(alloc: Global, text: &[char]) -> Result<Predicate, Fault>
    ensures { Answers (IsPredicate text.now) result }
{
    let tokens = scan(alloc, text)?;
    let nodes = parse(alloc, tokens.as_slice())?;
    let depth = depth(alloc, tokens.as_slice())?;
    if depth > MOST_NESTED {
        return Err(Fault::Unknown);
    }
    let branches = branches(alloc, nodes.as_slice())?;
    Ok(Predicate { nodes, branches })
}

impl Predicate {
    /// The predicate that the text between the braces of `{..}?` is. The place is that of the predicate.
    ///
    /// # Errors
    /// - `Unknown` with the place: the text is no predicate, by the grammar of predicates or since more than 256 of its `(` and `!`
    ///   are open at once.
    /// - `NoMemory`: memory runs out.
    pub fn read(alloc: Global, text: &str, place: Place) -> Result<Predicate, PredicateFault>
        ensures { IsReading (chars text.now) place result }
    {
        let characters: Vec<char> = text.chars().collect(alloc)?;
        match read_characters(alloc, &characters) {
            Ok(predicate) => Ok(predicate),
            Err(Fault::Unknown) => Err(PredicateFault::Unknown(place)),
            Err(Fault::NoMemory) => Err(PredicateFault::NoMemory),
        }
    }

    /// The tests and operators in postfix order: each operator comes directly after what it takes.
    pub fn nodes(&self) -> &[Node]
        ensures { result.now ≡ postfix self.now }
    {
        self.nodes.as_slice()
    }

    /// Whether the predicate holds in these surroundings. It takes no memory, and looks at each test once at most.
    pub fn eval<S: Surroundings>(&self, surroundings: &S) -> bool
        ensures { result ≡ value (S.moment surroundings.now) self.now }
    {
        let nodes = self.nodes.as_slice();
        let branches = self.branches.as_slice();
        let mut at = 0;
        while at < nodes.len() {
            let Node::Operand(test) = &nodes[at] else {
                return false;
            };
            at = branches[at].target(holds(surroundings, test));
        }
        at == nodes.len()
    }

    /// The names of the rules in `inside(..)`, in the order of the text.
    ///
    /// # Errors
    /// Memory runs out.
    pub fn rules_named(&self, alloc: Global) -> Result<Sequence<Text>, AllocError>
        ensures { IfOk result (λ rules. rules ≡ rules_of self.now) }
    {
        let mut rules = Vec::new(alloc);
        for node in self.nodes() {
            push_rule(alloc, &mut rules, node)?;
        }
        Ok(Sequence::new(rules))
    }
}

/// Adds the name of the rule that the node names, if it names one.
fn push_rule(alloc: Global, rules: &mut Vec<Text>, node: &Node) -> Result<(), AllocError>
    ensures { OnOk result (rules.new.items ≡ rules.old.items ++ rule_in node.now) }
{
    match node {
        Node::Operand(Test::Inside(rule)) => {
            rules.push(Text::copy_of(alloc, rule.as_str())?)?;
            Ok(())
        }
        _ => Ok(()),
    }
}
