// Where an alternative calls its own rule: as its first element, and as the last that is no action and no predicate.
ghost use Rattle.std.specs.Prelude.{◌≡◌, ◌+◌, ◌<◌, IfSome, MatchOption, None, Some, drop, length, map, take};
ghost use Rattle.g4_source.specs.Trees.{element_of, in_order};
ghost use Rattle.g4_leftrec.specs.OwnCalls.{after_self, before_self, is_atom, is_some};
ghost use Rattle.g4_leftrec.specs.OwnSteps.{calls, is_silent};

use g4_grammar::Step;
use g4_source::Element;
use g4_tokens::Symbols;

/// Whether the step calls the rule.
fn calls(rule: u32, step: &Step<Symbols>) -> bool
    ensures { result ≡ calls rule step.now }
{
    match step {
        Step::Call { rule: called, .. } => *called == rule,
        _ => false,
    }
}

/// Whether the step is a predicate or an action.
fn is_silent(step: &Step<Symbols>) -> bool
    ensures { result ≡ is_silent step.now }
{
    match step {
        Step::Predicate(_) => true,
        Step::Action => true,
        _ => false,
    }
}

/// Whether the element is a plain call of the rule, and no block.
fn is_plain_call(rule: u32, element: &Element<Step<Symbols>>) -> bool
    ensures { result ≡ is_atom (calls rule) (element_of element.now) }
{
    match element {
        Element::Atom(step) => calls(rule, step),
        Element::Block(..) => false,
    }
}

/// Whether the element is a predicate or an action.
fn is_silent_element(element: &Element<Step<Symbols>>) -> bool
    ensures { result ≡ is_atom is_silent (element_of element.now) }
{
    match element {
        Element::Atom(step) => is_silent(step),
        Element::Block(..) => false,
    }
}

/// Whether the first element is a plain call of the rule.
pub(crate) fn begins_with_call(rule: u32, elements: &[Element<Step<Symbols>>]) -> bool
    ensures { result ≡ is_some (after_self (calls rule) (in_order (map element_of elements.now))) }
{
    match elements {
        [first, ..] => is_plain_call(rule, first),
        [] => false,
    }
}

/// The place of the last element that is no action and no predicate, where it is a plain call of the rule.
pub(crate) fn place_of_last_call(rule: u32, elements: &[Element<Step<Symbols>>]) -> Option<usize>
    ensures within { IfSome result (λ place. place < length elements.now) }
    ensures last { MatchOption result
        (before_self (calls rule) is_silent (in_order (map element_of elements.now)) ≡ None)
        (λ place. before_self (calls rule) is_silent (in_order (map element_of elements.now))
        ≡ Some (record {
          before = in_order (map element_of (take place elements.now));
          trailing = in_order (map element_of (drop (place + 1) elements.now));
        })) }
{
    for place in (0..elements.len()).rev() {
        let element = &elements[place];
        if is_plain_call(rule, element) {
            return Some(place);
        }
        if !is_silent_element(element) {
            return None;
        }
    }
    None
}
