// The primaries and the operators of a left-recursive rule, with their levels.
ghost use Rattle.std.specs.Prelude.{◌≡◌, ◌<◌, ◌^◌, ◌+◌, ◌-◌, ◌++◌, [], ◌∷◌, IfOk, OnOk, Some, length, map, true};
ghost use Rattle.std.specs.List.{filter_map};
ghost use Rattle.g4_source.specs.Elements.{Elements as Tree};
ghost use Rattle.g4_source.specs.Trees.{alternative_of, element_of, in_order};
ghost use Rattle.g4_leftrec.specs.OwnCalls.{after_self, is_left_recursive, is_some, operator_of, primaries, primary_of};
ghost use Rattle.g4_leftrec.specs.OwnSteps.{calls};
ghost use Rattle.g4_leftrec.specs.Rewriting.{StepIn, operand_level, operator_elements, operator_form, operator_forms, primary_form, primary_forms, with_last_at};

use crate::places::{begins_with_call, place_of_last_call};
use g4_grammar::Step;
use g4_source::{Alternative, Element, RuleAlternative};
use g4_tokens::Symbols;
use std::alloc::{AllocError, Global};

/// The alternatives of a left-recursive rule so far, with their levels, and the numbers of the primaries.
#[derive(Drop)]
pub(crate) struct Kinds {
    pub primaries: Vec<Alternative<Step<Symbols>>>,
    pub operators: Vec<Alternative<Step<Symbols>>>,
    pub starts: Vec<u32>,
}

/// Whether some alternative begins with a plain call of the rule.
pub(crate) fn is_left_recursive(rule: u32, alternatives: &[RuleAlternative<Step<Symbols>>]) -> bool
    ensures { result ≡ is_left_recursive (calls rule) alternatives.now }
{
    for alternative in alternatives {
        if begins_with_call(rule, alternative.elements.as_slice()) {
            return true;
        }
    }
    false
}

/// The elements, with the rule at this level where it is the last of them.
fn with_last_at(
    rule: u32,
    level: u32,
    mut elements: Vec<Element<Step<Symbols>>>,
) -> Vec<Element<Step<Symbols>>>
    ensures { in_order (map element_of result.items) ≡ with_last_at rule level (in_order (map element_of elements.items)) }
{
    match place_of_last_call(rule, elements.as_slice()) {
        Some(place) => {
            elements[place] = Element::Atom(Step::Call { rule, level });
            elements
        }
        None => elements,
    }
}

/// The level of the right operand of an operator of this precedence.
fn operand_level(precedence: u32, right: bool) -> u32
    requires { precedence < 2 ^ 32 - 1 }
    ensures { result ≡ operand_level precedence right }
{
    if right { precedence } else { precedence + 1 }
}

/// The elements of an operator of this precedence, given those of its alternative.
fn operator_elements(
    rule: u32,
    precedence: u32,
    right: bool,
    mut elements: Vec<Element<Step<Symbols>>>,
) -> Vec<Element<Step<Symbols>>>
    requires precedence { precedence < 2 ^ 32 - 1 }
    requires begins { is_some (after_self (calls rule) (in_order (map element_of elements.items))) ≡ true }
    ensures { (rest : Tree StepIn) → after_self (calls rule) (in_order (map element_of elements.items)) ≡ Some rest
        → in_order (map element_of result.items) ≡ operator_elements rule precedence right rest }
{
    elements[0] = Element::Atom(Step::Level(precedence));
    let level = operand_level(precedence, right);
    with_last_at(rule, level, elements)
}

/// Adds the alternative of this number to the primaries or to the operators of a rule that has `count` alternatives.
fn add_alternative(
    kinds: &mut Kinds,
    rule: u32,
    count: u32,
    number: u32,
    alternative: RuleAlternative<Step<Symbols>>,
) -> Result<(), AllocError>
    requires count { count < 2 ^ 32 - 1 }
    requires number { 0 < number }
    ensures primaries { OnOk result (map alternative_of kinds.new.primaries.items
        ≡ map alternative_of kinds.old.primaries.items
        ++ map (primary_form rule count) (filter_map (primary_of (calls rule)) ((number, alternative) ∷ []))) }
    ensures operators { OnOk result (map alternative_of kinds.new.operators.items
        ≡ map alternative_of kinds.old.operators.items
        ++ map (operator_form rule count) (filter_map (operator_of (calls rule)) ((number, alternative) ∷ []))) }
    ensures starts { OnOk result (kinds.new.starts.items
        ≡ kinds.old.starts.items ++ map (λ x. x.number) (filter_map (primary_of (calls rule)) ((number, alternative) ∷ []))) }
{
    let RuleAlternative {
        right,
        elements,
        ..
    } = alternative;
    let elements = elements.into_vec();
    let precedence = (count + 1).saturating_sub(number);
    if begins_with_call(rule, elements.as_slice()) {
        let elements = operator_elements(rule, precedence, right, elements);
        kinds.operators.push(Alternative { elements })?;
        return Ok(());
    }
    let elements = with_last_at(rule, precedence, elements);
    kinds.primaries.push(Alternative { elements })?;
    kinds.starts.push(number)?;
    Ok(())
}

/// The primaries and the operators of the rule, which has `count` alternatives.
pub(crate) fn kinds_of(
    alloc: Global,
    rule: u32,
    count: u32,
    alternatives: Vec<RuleAlternative<Step<Symbols>>>,
) -> Result<Kinds, AllocError>
    requires count { count ≡ length alternatives.items }
    requires small { count < 2 ^ 32 - 1 }
    ensures primaries { IfOk result (λ kinds. map alternative_of kinds.primaries.items ≡ primary_forms rule alternatives.items) }
    ensures operators { IfOk result (λ kinds. map alternative_of kinds.operators.items ≡ operator_forms rule alternatives.items) }
    ensures starts { IfOk result (λ kinds. kinds.starts.items ≡ map (λ x. x.number) (primaries (calls rule) alternatives.items)) }
{
    let mut kinds = Kinds {
        primaries: Vec::new(alloc),
        operators: Vec::new(alloc),
        starts: Vec::new(alloc),
    };
    let mut number = 0u32;
    for alternative in alternatives {
        let Some(next) = number.checked_add(1) else {
            return Err(AllocError);
        };
        number = next;
        add_alternative(&mut kinds, rule, count, number, alternative)?;
    }
    Ok(kinds)
}
