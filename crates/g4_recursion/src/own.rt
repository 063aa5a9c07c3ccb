// Alternatives that begin with a call of their own rule.
ghost use Rattle.std.specs.Prelude.{◌≡◌, ◌↔◌, Bool, IsTrue, List, MatchOption, Some, map, slice_get};
ghost use Rattle.g4_source.specs.Elements.{atom as lone, Elements as Tree};
ghost use Rattle.g4_source.specs.Trees.{element_of, in_order};
ghost use Rattle.g4_grammar.specs.OwnCalls.{IsOperator};
ghost use Rattle.g4_recursion.specs.declared.lead.Lead.{Lead as Atom};
ghost use Rattle.g4_recursion.specs.Leads.{FollowsCall, OwnLead};

use crate::Lead;
use g4_source::Element;

/// Whether it is a call of the rule of this number.
fn is_call(lead: Lead, number: usize) -> bool
    ensures { IsTrue result ↔ (lead ≡ Lead.Call number) }
{
    match lead {
        Lead::Empty => false,
        Lead::Symbol => false,
        Lead::Call(rule) => rule as usize == number,
    }
}

/// Whether the element is a call of the rule of this number, not in brackets and without a sign.
fn is_plain_call(element: &Element<Lead>, number: usize) -> bool
    ensures { IsTrue result ↔ (element_of element.now ≡ lone (Lead.Call number)) }
{
    match element {
        Element::Atom(lead) => is_call(*lead, number),
        Element::Block(..) => false,
    }
}

/// The elements after the first one, where that is a plain call of the rule of this number.
pub fn after_call(number: usize, elements: &[Element<Lead>]) -> Option<&[Element<Lead>]>
    ensures { MatchOption result ((rest : Tree Atom) → FollowsCall number (in_order (map element_of elements.now)) rest → ⊥)
        (λ rest. FollowsCall number (in_order (map element_of elements.now)) (in_order (map element_of rest.now))) }
{
    match elements {
        [first, rest @ ..] => {
            if is_plain_call(first, number) {
                Some(rest)
            } else {
                None
            }
        }
        [] => None,
    }
}

/// What follows the call of the rule itself in an operator of the rule of this number, which may have operators or not.
pub(crate) fn after_own_call(
    may_have_operators: bool,
    number: usize,
    elements: &[Element<Lead>],
) -> Option<&[Element<Lead>]>
    ensures { (operators : List Bool) → slice_get operators number ≡ Some may_have_operators
        → MatchOption result ((rest : Tree Atom) → IsOperator (OwnLead operators) number (in_order (map element_of elements.now)) rest
        → ⊥) (λ rest. IsOperator (OwnLead operators) number (in_order (map element_of elements.now)) (in_order (map element_of rest.now))) }
{
    if may_have_operators {
        after_call(number, elements)
    } else {
        None
    }
}
