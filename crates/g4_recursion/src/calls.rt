// Which rules a rule calls before anything is read.
ghost use Rattle.std.specs.Prelude.{◌≡◌, ◌↔◌, ◌⊎◌, Bool, IsTrue, ℕ, List, map, Option, Some, Vec, IfOk, OnOk, Contains, length, slice_get, vec_len, ◌||◌};
ghost use Rattle.std.specs.Global.{Global as TheGlobal};
ghost use Rattle.g4_source.specs.declared.name.Label.{Label as Named};
ghost use Rattle.g4_source.specs.Elements.{atom as lone, block, Alternatives, either};
ghost use Rattle.g4_source.specs.Trees.{element_of, alternative_of, in_order};
ghost use Rattle.g4_grammar.specs.LeftCalls.{Nullable, AllNullable, OneNullable, IsLeftOf, IsLeftOfAll, IsLeftOfOne};
ghost use Rattle.g4_grammar.specs.OwnCalls.{IsLeftAsRun, IsLeftOfOneAsRun, LeftCallsAsRun};
ghost use Rattle.g4_horn.specs.Follows.{Tells};
ghost use Rattle.g4_recursion.specs.declared.lead.Lead.{Lead as Atom};
ghost use Rattle.g4_recursion.specs.Leads.{ReadsLead, CallsLead, IsNullableRule, OwnLead, alternatives_of, operators_of, trees_of};
ghost use Rattle.g4_recursion.specs.Finds.{TellsCalls};

use crate::lead::{is_nullable, says};
use crate::own::after_own_call;
use crate::{Lead, LeadRule};
use g4_source::{Alternative, Element, Repeat};
use std::alloc::{AllocError, Global};

/// Adds the call of an atom, and says whether the atom derives the empty word.
fn of_lead(nullable: &[bool], lead: Lead, calls: &mut Vec<u32>) -> Result<bool, AllocError>
    ensures { IfOk result (λ answer. (rules : List (Alternatives Atom)) → Tells nullable.now (IsNullableRule rules)
        → TellsCalls answer calls.old.items calls.new.items (Nullable ReadsLead CallsLead rules (lone lead))
        (IsLeftOf ReadsLead CallsLead rules (lone lead))) }
{
    if let Lead::Call(rule) = lead {
        calls.push(rule)?;
    }
    Ok(is_nullable(nullable, lead))
}

/// Adds the left calls of an element, and says whether the element derives the empty word.
#[cycle(calls)]
fn of_element(
    nullable: &[bool],
    element: &Element<Lead>,
    calls: &mut Vec<u32>,
) -> Result<bool, AllocError>
    ensures { IfOk result (λ answer. (rules : List (Alternatives Atom)) → Tells nullable.now (IsNullableRule rules)
        → TellsCalls answer calls.old.items calls.new.items (Nullable ReadsLead CallsLead rules (element_of element.now))
        (IsLeftOf ReadsLead CallsLead rules (element_of element.now))) }
{
    match element {
        Element::Atom(lead) => {
            let answer = of_lead(nullable, *lead, calls)?;
            Ok(answer)
        }
        Element::Block(_, repeat, alternatives) => {
            let body = of_either(nullable, alternatives.as_slice(), calls)?;
            Ok(is_nullable_block(*repeat, body))
        }
    }
}

/// Whether a block derives the empty word, by whether one of its alternatives does.
fn is_nullable_block(repeat: Repeat, body: bool) -> bool
    ensures { (rules : List (Alternatives Atom)) (label : Option Named) (xs : Alternatives Atom)
        → (IsTrue body ↔ OneNullable ReadsLead CallsLead rules xs)
        → IsTrue result ↔ Nullable ReadsLead CallsLead rules (block label repeat xs) }
{
    match repeat {
        Repeat::Once => body,
        Repeat::Optional(_) => true,
        Repeat::Star(_) => true,
        Repeat::Plus(_) => body,
    }
}

/// One or the other.
fn either_of(one: bool, other: bool) -> bool
    ensures { result ≡ (one || other) }
{
    one || other
}

/// The same of alternatives.
#[cycle(calls)]
fn of_either(
    nullable: &[bool],
    alternatives: &[Alternative<Lead>],
    calls: &mut Vec<u32>,
) -> Result<bool, AllocError>
    ensures { IfOk result (λ answer. (rules : List (Alternatives Atom)) → Tells nullable.now (IsNullableRule rules)
        → TellsCalls answer calls.old.items calls.new.items
        (OneNullable ReadsLead CallsLead rules (either (map alternative_of alternatives.now)))
        (IsLeftOfOne ReadsLead CallsLead rules (either (map alternative_of alternatives.now)))) }
{
    let mut found = false;
    for alternative in alternatives {
        let one = of_elements(nullable, alternative.elements.as_slice(), calls)?;
        found = either_of(found, one);
    }
    Ok(found)
}

/// The same of elements one after another.
#[cycle(calls)]
fn of_elements(
    nullable: &[bool],
    elements: &[Element<Lead>],
    calls: &mut Vec<u32>,
) -> Result<bool, AllocError>
    ensures { IfOk result (λ answer. (rules : List (Alternatives Atom)) → Tells nullable.now (IsNullableRule rules)
        → TellsCalls answer calls.old.items calls.new.items
        (AllNullable ReadsLead CallsLead rules (in_order (map element_of elements.now)))
        (IsLeftOfAll ReadsLead CallsLead rules (in_order (map element_of elements.now)))) }
{
    for element in elements {
        let answer = of_element(nullable, element, calls)?;
        if !answer {
            return Ok(false);
        }
    }
    Ok(true)
}

/// Adds the left calls of an alternative of the rule of this number, which may have operators or not, as the rule is run.
fn of_alternative(
    nullable: &[bool],
    may_have_operators: bool,
    number: usize,
    elements: &[Element<Lead>],
    calls: &mut Vec<u32>,
) -> Result<(), AllocError>
    ensures { OnOk result ((rules : List (Alternatives Atom)) (operators : List Bool) → Tells nullable.now (IsNullableRule rules)
        → slice_get operators number ≡ Some may_have_operators → (j : ℕ)
        → Contains calls.new.items j ↔ (Contains calls.old.items j
        ⊎ IsLeftAsRun ReadsLead CallsLead (OwnLead operators) rules number (in_order (map element_of elements.now)) j)) }
{
    match after_own_call(may_have_operators, number, elements) {
        Some(rest) => {
            if says(nullable, number) {
                of_elements(nullable, rest, calls)?;
            }
        }
        None => {
            of_elements(nullable, elements, calls)?;
        }
    }
    Ok(())
}

/// The left calls of the rule of this number, as it is run.
fn of_rule(
    alloc: Global,
    nullable: &[bool],
    number: usize,
    rule: &LeadRule,
) -> Result<Vec<u32>, AllocError>
    ensures { IfOk result (λ calls. (rules : List (Alternatives Atom)) (operators : List Bool)
        → Tells nullable.now (IsNullableRule rules) → slice_get operators number ≡ Some rule.now.may_have_operators → (j : ℕ)
        → Contains calls.items j ↔ IsLeftOfOneAsRun ReadsLead CallsLead (OwnLead operators) rules number (alternatives_of rule.now) j) }
{
    let mut calls = Vec::new(alloc);
    let operators = rule.may_have_operators;
    for elements in rule.alternatives.as_slice() {
        of_alternative(nullable, operators, number, elements.as_slice(), &mut calls)?;
    }
    Ok(calls)
}

/// Of each rule, the rules that it calls before anything is read, as it is run, perhaps with repetitions, where it is given which
/// rules derive the empty word.
///
/// # Errors
/// No memory.
pub fn left_calls(
    alloc: Global,
    nullable: &[bool],
    rules: &[LeadRule],
) -> Result<Vec<Vec<u32>>, AllocError>
    requires { Tells nullable.now (IsNullableRule (trees_of rules.now)) }
    ensures count { IfOk result (λ all. vec_len all ≡ length rules.now) }
    ensures calls { IfOk result (λ all. (k : ℕ) (calls : Vec ℕ TheGlobal) → slice_get all.items k ≡ Some calls → (j : ℕ)
        → Contains calls.items j ↔ LeftCallsAsRun ReadsLead CallsLead (OwnLead (operators_of rules.now)) (trees_of rules.now) k j) }
{
    let mut all = Vec::with_capacity(alloc, rules.len())?;
    for (number, rule) in rules.iter().enumerate() {
        all.push(of_rule(alloc, nullable, number, rule)?)?;
    }
    Ok(all)
}
