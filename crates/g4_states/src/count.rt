// How many states rules make in a network, as far as that many are to spare.
ghost use Rattle.std.specs.Prelude.{◌≡◌, ◌<◌, ◌+◌, MatchOption, map, sum_by};
ghost use Rattle.g4_source.specs.Elements.{either};
ghost use Rattle.g4_source.specs.Trees.{element_of, alternative_of, in_order};
ghost use Rattle.g4_layout.specs.Size.{states_by, states_in_order_by, states_of_bodies_by, states_of_rule_by};
ghost use Rattle.g4_states.specs.Drafts.{states_of_block_by};
ghost use Rattle.g4_states.specs.Trees.{tree_of_rule};
ghost use Rattle.g4_source.specs.declared.element.Repeat.TheVariants.{Once};

use crate::atomic::{Atomic, Body, LaidRule};
use g4_source::{Alternative, Element, Repeat};

/// How many of the spare states are left beyond those of an element, where they suffice.
#[cycle(count)]
fn past_element<A: Atomic>(spare: usize, element: &Element<A>) -> Option<usize>
    ensures { MatchOption result (spare < states_by A.states (element_of element.now))
        (λ left. left + states_by A.states (element_of element.now) ≡ spare) }
{
    match element {
        Element::Atom(atom) => spare.checked_sub(atom.states()),
        Element::Block(_, repeat, alternatives) => {
            past_block(spare, *repeat, alternatives.as_slice())
        }
    }
}

/// The same beyond a block of these alternatives, with this repeat.
#[cycle(count)]
fn past_block<A: Atomic>(
    spare: usize,
    repeat: Repeat,
    alternatives: &[Alternative<A>],
) -> Option<usize>
    ensures { MatchOption result (spare < states_of_block_by A.states repeat (either (map alternative_of alternatives.now)))
        (λ left. left + states_of_block_by A.states repeat (either (map alternative_of alternatives.now)) ≡ spare) }
{
    match repeat {
        Repeat::Once => past_once(spare, alternatives),
        Repeat::Optional(_) => past_sides(spare, alternatives)?.checked_sub(2),
        Repeat::Star(_) => past_sides(spare, alternatives)?.checked_sub(1),
        Repeat::Plus(_) => past_sides(spare, alternatives)?.checked_sub(2),
    }
}

/// The same beyond a block of these alternatives, which are taken once.
#[cycle(count)]
fn past_once<A: Atomic>(spare: usize, alternatives: &[Alternative<A>]) -> Option<usize>
    ensures { MatchOption result (spare < states_of_block_by A.states Once (either (map alternative_of alternatives.now)))
        (λ left. left + states_of_block_by A.states Once (either (map alternative_of alternatives.now)) ≡ spare) }
{
    match alternatives {
        [] => Some(spare),
        [one] => past_run(spare, one.elements.as_slice()),
        several => past_sides(spare, several)?.checked_sub(1),
    }
}

/// The same beyond alternatives side by side.
#[cycle(count)]
fn past_sides<A: Atomic>(spare: usize, alternatives: &[Alternative<A>]) -> Option<usize>
    ensures { MatchOption result (spare < states_of_bodies_by A.states (either (map alternative_of alternatives.now)))
        (λ left. left + states_of_bodies_by A.states (either (map alternative_of alternatives.now)) ≡ spare) }
{
    let mut left = spare;
    for alternative in alternatives {
        left = past_run(left.checked_sub(1)?, alternative.elements.as_slice())?;
    }
    Some(left)
}

/// The same beyond elements one after another.
#[cycle(count)]
fn past_run<A: Atomic>(spare: usize, elements: &[Element<A>]) -> Option<usize>
    ensures { MatchOption result (spare < states_in_order_by A.states (in_order (map element_of elements.now)))
        (λ left. left + states_in_order_by A.states (in_order (map element_of elements.now)) ≡ spare) }
{
    let mut left = spare;
    for element in elements {
        left = past_element(left, element)?;
    }
    Some(left)
}

/// The same beyond the alternatives of a rule.
fn past_rule<A: Atomic, B: Body<A>>(spare: usize, alternatives: &[B]) -> Option<usize>
    ensures { MatchOption result (spare < states_of_rule_by A.states (either (map B.tree alternatives.now)))
        (λ left. left + states_of_rule_by A.states (either (map B.tree alternatives.now)) ≡ spare) }
{
    match alternatives {
        [one] => past_run(spare, one.elements()),
        several => past_bodies(spare, several),
    }
}

/// The same beyond alternatives of a rule side by side.
fn past_bodies<A: Atomic, B: Body<A>>(spare: usize, alternatives: &[B]) -> Option<usize>
    ensures { MatchOption result (spare < states_of_bodies_by A.states (either (map B.tree alternatives.now)))
        (λ left. left + states_of_bodies_by A.states (either (map B.tree alternatives.now)) ≡ spare) }
{
    let mut left = spare;
    for alternative in alternatives {
        left = past_run(left.checked_sub(1)?, alternative.elements())?;
    }
    Some(left)
}

/// The same beyond the alternatives of all rules.
pub fn past_rules<A: Atomic, B: Body<A>, R: LaidRule<B>>(spare: usize, rules: &[R]) -> Option<usize>
    ensures { MatchOption result (spare < sum_by (λ rule. states_of_rule_by A.states (tree_of_rule B.tree R.bodies rule)) rules.now)
        (λ left. left + sum_by (λ rule. states_of_rule_by A.states (tree_of_rule B.tree R.bodies rule)) rules.now ≡ spare) }
{
    let mut left = spare;
    for rule in rules {
        left = past_rule::<A, B>(left, rule.bodies())?;
    }
    Some(left)
}
