// The clauses of bodies. A body is the alternatives of a rule or of a block, and has a number: rules come first. An alternative
// has a clause whose needs are the bodies of its elements, unless one of these reads something.
ghost use Rattle.std.specs.Prelude.{◌≡◌, ◌+◌, List, map, Option, IfOk, OnOk, length, slice_get, Some};
ghost use Rattle.g4_source.specs.declared.name.Label.{Label as Named};
ghost use Rattle.g4_source.specs.Elements.{atom as lone, block, Alternatives, either};
ghost use Rattle.g4_source.specs.Trees.{element_of, alternative_of, in_order};
ghost use Rattle.g4_grammar.specs.LeftCalls.{AllNullable};
ghost use Rattle.g4_recursion.specs.declared.lead.Lead.{Lead as Atom};
ghost use Rattle.g4_recursion.specs.Leads.{ReadsLead, CallsLead, trees_of};
ghost use Rattle.g4_recursion.specs.Bodies.{AddsNeeds, AreBodies, AreCovered, Grows, HasClause, IsAlternative, IsCovered};

use crate::{Lead, LeadRule};
use g4_horn::Clause;
use g4_source::{Alternative, Element, Elements, Repeat};
use std::alloc::{AllocError, Global};

/// The bodies so far.
#[derive(Drop)]
pub struct Bodies {
    /// How many of them are rules.
    pub rules: u32,
    /// How many there are.
    pub count: u32,
    pub clauses: Vec<Clause>,
}

impl Bodies {
    /// The number of a new body, unless the numbers run out.
    fn add(&mut self) -> Result<u32, AllocError>
        ensures number { IfOk result (λ n. (n ≡ self.old.count) × (self.new.count ≡ self.old.count + 1)) }
        ensures same { (self.new.rules ≡ self.old.rules) × (self.new.clauses ≡ self.old.clauses) }
    {
        let number = self.count;
        if number == u32::MAX {
            return Err(AllocError);
        }
        self.count = number + 1;
        Ok(number)
    }
}

/// Adds the need of an atom, and says whether the atom may derive the empty word.
fn add_need_of_lead(rules: u32, lead: Lead, needs: &mut Vec<u32>) -> Result<bool, AllocError>
    ensures { IfOk result (λ can. (all bodies : List (Alternatives Atom)) → rules ≡ length all
        → AddsNeeds all bodies (lone lead) needs.old.items needs.new.items can) }
{
    match lead {
        Lead::Empty => Ok(true),
        Lead::Symbol => Ok(false),
        Lead::Call(rule) => {
            if rule < rules {
                needs.push(rule)?;
                Ok(true)
            } else {
                Ok(false)
            }
        }
    }
}

/// Adds the needs of an element, and says whether the element may derive the empty word.
#[cycle(clauses)]
fn add_needs(
    alloc: Global,
    made: &mut Bodies,
    element: &Element<Lead>,
    needs: &mut Vec<u32>,
) -> Result<bool, AllocError>
    ensures { IfOk result (λ can. (rules bodies : List (Alternatives Atom)) → AreBodies rules bodies made.old
        → (later : List (Alternatives Atom)) × Grows rules bodies later made.old made.new
        × AddsNeeds rules later (element_of element.now) needs.old.items needs.new.items can) }
{
    match element {
        Element::Atom(lead) => {
            let can = add_need_of_lead(made.rules, *lead, needs)?;
            Ok(can)
        }
        Element::Block(_, repeat, alternatives) => {
            let can = add_needs_of_block(alloc, made, *repeat, alternatives.as_slice(), needs)?;
            Ok(can)
        }
    }
}

/// The same of a block.
#[cycle(clauses)]
fn add_needs_of_block(
    alloc: Global,
    made: &mut Bodies,
    repeat: Repeat,
    alternatives: &[Alternative<Lead>],
    needs: &mut Vec<u32>,
) -> Result<bool, AllocError>
    ensures { IfOk result (λ can. (rules bodies : List (Alternatives Atom)) → AreBodies rules bodies made.old
        → (later : List (Alternatives Atom)) × Grows rules bodies later made.old made.new
        × ((label : Option Named) → AddsNeeds rules later (block label repeat (either (map alternative_of alternatives.now)))
        needs.old.items needs.new.items can)) }
{
    match repeat {
        Repeat::Optional(_) => Ok(true),
        Repeat::Star(_) => Ok(true),
        Repeat::Once => {
            let number = add_block(alloc, made, alternatives)?;
            needs.push(number)?;
            Ok(true)
        }
        Repeat::Plus(_) => {
            let number = add_block(alloc, made, alternatives)?;
            needs.push(number)?;
            Ok(true)
        }
    }
}

/// The number of a new body of these alternatives, whose clauses are added.
#[cycle(clauses)]
fn add_block(
    alloc: Global,
    made: &mut Bodies,
    alternatives: &[Alternative<Lead>],
) -> Result<u32, AllocError>
    ensures { IfOk result (λ n. (rules bodies : List (Alternatives Atom)) → AreBodies rules bodies made.old
        → (later : List (Alternatives Atom)) × Grows rules bodies later made.old made.new
        × (slice_get later n ≡ Some (either (map alternative_of alternatives.now)))) }
{
    let number = made.add()?;
    add_alternatives(alloc, made, number, alternatives)?;
    Ok(number)
}

/// Adds the clauses of the alternatives of a body.
#[cycle(clauses)]
fn add_alternatives(
    alloc: Global,
    made: &mut Bodies,
    number: u32,
    alternatives: &[Alternative<Lead>],
) -> Result<(), AllocError>
    ensures { OnOk result ((rules bodies : List (Alternatives Atom)) → AreBodies rules bodies made.old
        → slice_get bodies number ≡ Some (either (map alternative_of alternatives.now))
        → (later : List (Alternatives Atom)) × Grows rules bodies later made.old made.new
        × IsCovered rules later made.new.clauses.items number (either (map alternative_of alternatives.now))) }
{
    for alternative in alternatives {
        add_alternative(alloc, made, number, alternative.elements.as_slice())?;
    }
    Ok(())
}

/// Adds the clause of an alternative of a body, if it may derive the empty word.
#[cycle(clauses)]
fn add_alternative(
    alloc: Global,
    made: &mut Bodies,
    number: u32,
    elements: &[Element<Lead>],
) -> Result<(), AllocError>
    ensures { OnOk result ((rules bodies : List (Alternatives Atom)) (body : Alternatives Atom) → AreBodies rules bodies made.old
        → slice_get bodies number ≡ Some body → IsAlternative body (in_order (map element_of elements.now))
        → (later : List (Alternatives Atom)) × Grows rules bodies later made.old made.new
        × (AllNullable ReadsLead CallsLead rules (in_order (map element_of elements.now))
        → HasClause rules later made.new.clauses.items number (in_order (map element_of elements.now)))) }
{
    let mut needs = Vec::new(alloc);
    for element in elements {
        let can = add_needs(alloc, made, element, &mut needs)?;
        if !can {
            return Ok(());
        }
    }
    made.clauses.push(Clause {
        head: number,
        needs,
    })?;
    Ok(())
}

/// Adds the clauses of the alternatives of a rule.
fn add_rule(
    alloc: Global,
    made: &mut Bodies,
    number: u32,
    alternatives: &[Elements<Lead>],
) -> Result<(), AllocError>
    ensures { OnOk result ((rules bodies : List (Alternatives Atom)) → AreBodies rules bodies made.old
        → slice_get bodies number ≡ Some (either alternatives.now)
        → (later : List (Alternatives Atom)) × Grows rules bodies later made.old made.new
        × IsCovered rules later made.new.clauses.items number (either alternatives.now)) }
{
    for elements in alternatives {
        add_alternative(alloc, made, number, elements.as_slice())?;
    }
    Ok(())
}

/// The bodies of the rules and of the blocks in them that matter, with all their clauses.
///
/// # Errors
/// No memory, also where there are more bodies than numbers of 32 bits.
pub fn bodies_of(alloc: Global, rules: &[LeadRule]) -> Result<Bodies, AllocError>
    ensures { IfOk result (λ made. (bodies : List (Alternatives Atom)) × AreBodies (trees_of rules.now) bodies made
        × AreCovered (trees_of rules.now) bodies made.clauses.items) }
{
    if rules.len() > u32::MAX as usize {
        return Err(AllocError);
    }
    let mut made = Bodies {
        rules: rules.len() as u32,
        count: rules.len() as u32,
        clauses: Vec::new(alloc),
    };
    for (number, rule) in rules.iter().enumerate() {
        add_rule(
            alloc,
            &mut made,
            number as u32,
            rule.alternatives.as_slice(),
        )?;
    }
    Ok(made)
}
