// The rule that holds the place of a fault.
ghost use Rattle.std.specs.Prelude.{◌↔◌, IfOk, IsTrue, map};
ghost use Rattle.g4_checks.specs.Holders.{FindsHolder, HasLexerPredicate, HasUnknownPredicate, HoldsPlace};
ghost use Rattle.g4_source.specs.Views.{rule_view};

use crate::atoms::rule_atoms_of;
use crate::predicates::{first_in_lexer, first_unknown};
use crate::references::ReferenceFault;
use g4_source::{RuleView, Source, views_of};
use std::alloc::{AllocError, Global};

/// Whether the rule is a lexer rule with a predicate.
fn has_lexer_predicate(alloc: Global, rule: RuleView<'_>) -> Result<bool, AllocError>
    ensures { IfOk result (λ holds. IsTrue holds ↔ HasLexerPredicate (rule_view rule.entry)) }
{
    let atoms = rule_atoms_of(alloc, rule)?;
    Ok(first_in_lexer(atoms.as_slice()).is_some())
}

/// Whether the rule is a parser rule with a predicate whose text no predicate has.
fn has_unknown_predicate(alloc: Global, rule: RuleView<'_>) -> Result<bool, AllocError>
    ensures { IfOk result (λ holds. IsTrue holds ↔ HasUnknownPredicate (rule_view rule.entry)) }
{
    let atoms = rule_atoms_of(alloc, rule)?;
    let first = first_unknown(alloc, atoms.as_slice())?;
    Ok(first.is_some())
}

/// Whether the rule has what the fault is about, at a place.
fn holds_place(
    alloc: Global,
    fault: &ReferenceFault,
    rule: RuleView<'_>,
) -> Result<bool, AllocError>
    ensures { IfOk result (λ holds. IsTrue holds ↔ HoldsPlace fault.now (rule_view rule.entry)) }
{
    match fault {
        ReferenceFault::LexerPredicate(_) => has_lexer_predicate(alloc, rule),
        ReferenceFault::UnknownPredicate(_) => has_unknown_predicate(alloc, rule),
        _ => Ok(false),
    }
}

/// The number, counted from 0, of the rule that holds the place of a fault; none, where the fault has no place.
///
/// # Errors
/// No memory.
pub fn holder_of(
    alloc: Global,
    source: &Source,
    fault: &ReferenceFault,
) -> Result<Option<usize>, AllocError>
    ensures { IfOk result (FindsHolder fault.now source.now.rules) }
{
    let rules = views_of(alloc, source.rules.as_slice())?;
    for (number, rule) in rules.iter().enumerate() {
        if holds_place(alloc, fault, *rule)? {
            return Ok(Some(number));
        }
    }
    Ok(None)
}
