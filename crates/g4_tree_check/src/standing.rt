// How far reading has come in a tree.
ghost use Rattle.std.specs.Prelude.{◌≡◌, ◌↔◌, [], ◌∷◌, ℕ, List, IfOk, IfSome, IfNone, IsTrue};
ghost use Rattle.g4_source.specs.Elements.{Elements as Body};
ghost use Rattle.g4_grammar.specs.declared.step.Step.{Step as AStep};
ghost use Rattle.g4_grammar.specs.StepRules.{StepRule as Rule};
ghost use Rattle.g4_tokens.specs.TokenList.{word_of};
ghost use Rattle.g4_trees.specs.declared.tree.Item.{Item as TreeItem};
ghost use Rattle.g4_trees.specs.declared.tree.Item.TheVariants.{Enter as enter, Token as token, Exit as exit};
ghost use Rattle.g4_tree_check.specs.Standing.{CanEnd, FitsBody, IsOneNode};
ghost use Rattle.g4_tree_check.specs.TreesOf.{IsBody};

use crate::matching::derives;
use g4_grammar::{Step, StepRule};
use g4_source::Elements;
use g4_tokens::{Symbols, Token};
use g4_trees::Item;
use std::alloc::{AllocError, Global};
use std::mem;

/// A node that is open: its first item, and the first items of the children before it.
#[derive(Drop)]
pub(crate) struct OpenNode {
    rule: u32,
    alt: u32,
    at: u32,
    before: Vec<Item>,
}

/// How far reading has come: the open nodes, the newest last, the first items of the children of the newest so far, and the
/// place of the next token.
#[derive(Drop)]
pub(crate) struct Standing {
    nodes: Vec<OpenNode>,
    heads: Vec<Item>,
    next: usize,
}

/// The elements of an alternative of a rule. Both count from 1.
fn body(rules: &[StepRule], rule: u32, alt: u32) -> Option<&Elements<Step<Symbols>>>
    ensures found { IfSome result (λ x. IsBody rules.now rule alt x.now) }
    ensures none { IfNone result ((x : Body (AStep (List ℕ))) → IsBody rules.now rule alt x → ⊥) }
{
    if rule == 0 {
        return None;
    }
    if alt == 0 {
        return None;
    }
    let rule = rules.get(rule as usize - 1)?;
    let alternative = rule.alternatives.as_slice().get(alt as usize - 1)?;
    Some(&alternative.elements)
}

/// Whether the children are a word of the alternative.
fn fits(
    alloc: Global,
    rules: &[StepRule],
    node: &OpenNode,
    heads: &[Item],
    tokens: &[Token],
) -> Result<bool, AllocError>
    ensures { IfOk result (λ yes. IsTrue yes ↔ FitsBody rules.now (word_of tokens.now) node.now.rule node.now.alt heads.now) }
{
    match body(rules, node.rule, node.alt) {
        Some(elements) => {
            let yes = derives(alloc, elements, heads, tokens)?;
            Ok(yes)
        }
        None => Ok(false),
    }
}

/// Whether there is one child, a node.
fn is_one_node(heads: &[Item]) -> bool
    ensures { IsTrue result ↔ IsOneNode heads.now }
{
    match heads.split_first() {
        Some((Item::Enter { .. }, more)) => more.is_empty(),
        _ => false,
    }
}

impl Standing {
    /// Before the first item.
    pub(crate) fn new(alloc: Global) -> Standing
        ensures { (result.nodes.items ≡ []) × (result.heads.items ≡ []) × (result.next ≡ 0) }
    {
        Standing {
            nodes: Vec::new(alloc),
            heads: Vec::new(alloc),
            next: 0,
        }
    }

    /// Reads the beginning of a node, and says whether it is at the place of the next token.
    fn enter(&mut self, alloc: Global, rule: u32, alt: u32, at: u32) -> Result<bool, AllocError>
        ensures { IfOk result (λ yes. (rules : List Rule) (word : List ℕ) (rest : List TreeItem)
            → CanEnd rules word self.old (enter rule alt at ∷ rest) ↔ (IsTrue yes × CanEnd rules word self.new rest)) }
    {
        if at as usize != self.next {
            return Ok(false);
        }
        let before = mem::replace(&mut self.heads, Vec::new(alloc));
        self.nodes.push(OpenNode {
            rule,
            alt,
            at,
            before,
        })?;
        Ok(true)
    }

    /// Reads a token, and says whether it is the next one.
    fn token(&mut self, at: u32) -> Result<bool, AllocError>
        ensures { IfOk result (λ yes. (rules : List Rule) (word : List ℕ) (rest : List TreeItem)
            → CanEnd rules word self.old (token at ∷ rest) ↔ (IsTrue yes × CanEnd rules word self.new rest)) }
    {
        if at as usize != self.next {
            return Ok(false);
        }
        self.heads.push(Item::Token(at))?;
        self.next = at as usize + 1;
        Ok(true)
    }

    /// Reads the end of a node, and says whether a node is open and its children are a word of its alternative.
    fn exit(
        &mut self,
        alloc: Global,
        rules: &[StepRule],
        tokens: &[Token],
    ) -> Result<bool, AllocError>
        ensures { IfOk result (λ yes. (rest : List TreeItem)
            → CanEnd rules.now (word_of tokens.now) self.old (exit ∷ rest)
            ↔ (IsTrue yes × CanEnd rules.now (word_of tokens.now) self.new rest)) }
    {
        let Some(node) = self.nodes.pop() else {
            return Ok(false);
        };
        if !fits(alloc, rules, &node, self.heads.as_slice(), tokens)? {
            return Ok(false);
        }
        let OpenNode {
            rule,
            alt,
            at,
            before,
        } = node;
        self.heads = before;
        self.heads.push(Item::Enter { rule, alt, at })?;
        Ok(true)
    }

    /// Reads an item. It says whether there are still items that complete a tree that fits, if there were before.
    pub(crate) fn read(
        &mut self,
        alloc: Global,
        rules: &[StepRule],
        item: &Item,
        tokens: &[Token],
    ) -> Result<bool, AllocError>
        ensures { IfOk result (λ yes. (rest : List TreeItem)
            → CanEnd rules.now (word_of tokens.now) self.old (item.now ∷ rest)
            ↔ (IsTrue yes × CanEnd rules.now (word_of tokens.now) self.new rest)) }
    {
        match item {
            Item::Enter { rule, alt, at } => {
                let in_place = self.enter(alloc, *rule, *alt, *at)?;
                Ok(in_place)
            }
            Item::Token(at) => {
                let in_order = self.token(*at)?;
                Ok(in_order)
            }
            Item::Exit => {
                let closed = self.exit(alloc, rules, tokens)?;
                Ok(closed)
            }
        }
    }

    /// Whether no node is open and there was one tree, a node.
    pub(crate) fn is_complete(&self) -> bool
        ensures { (rules : List Rule) (word : List ℕ) → IsTrue result ↔ CanEnd rules word self.now [] }
    {
        self.nodes.is_empty() && is_one_node(self.heads.as_slice())
    }
}
