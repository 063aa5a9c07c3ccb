// The children of a node, and which of them a step reads.
ghost use Rattle.std.specs.Prelude.{◌≡◌};
ghost use Rattle.g4_tokens.specs.TokenList.{word_of};
ghost use Rattle.g4_tree_check.specs.Children.{child_of, is_quiet, takes};

use g4_grammar::Step;
use g4_tokens::{Symbols, Token};
use g4_trees::Item;

/// A child of a node, by what a step needs to know of it.
#[derive(Clone, Copy, Debug, PartialEq, Eq)]
pub(crate) enum Child {
    /// A token of this symbol.
    Symbol(u32),
    /// A node of this rule.
    Node(u32),
    /// No child: the item is an end, or a token past the last one of the list.
    Nothing,
}

/// The child that begins with this item.
pub(crate) fn child_of(head: &Item, tokens: &[Token]) -> Child
    ensures { result ≡ child_of (word_of tokens.now) head.now }
{
    match head {
        Item::Enter { rule, .. } => Child::Node(*rule),
        Item::Token(at) => match tokens.get(*at as usize) {
            Some(token) => Child::Symbol(token.symbol),
            None => Child::Nothing,
        },
        Item::Exit => Child::Nothing,
    }
}

/// Whether the step reads the child.
pub(crate) fn takes(child: Child, step: &Step<Symbols>) -> bool
    ensures { result ≡ takes child step.now }
{
    match child {
        Child::Symbol(symbol) => match step {
            Step::Edge(set) => set.contains(symbol),
            _ => false,
        },
        Child::Node(rule) => match step {
            Step::Call { rule: called, .. } => *called == rule,
            _ => false,
        },
        Child::Nothing => false,
    }
}

/// Whether the step reads nothing.
pub(crate) fn is_quiet(step: &Step<Symbols>) -> bool
    ensures { result ≡ is_quiet step.now }
{
    match step {
        Step::Edge(_) => false,
        Step::Call { .. } => false,
        Step::Predicate(_) => true,
        Step::Level(_) => true,
        Step::Action => true,
        Step::Empty => true,
    }
}
