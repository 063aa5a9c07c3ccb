// The first fault of a grammar's rules.
ghost use Rattle.std.specs.Prelude.{OnOk};
ghost use Rattle.g4_grammar.specs.Written.{RulesAreDefined, RulesCanRun};
ghost use Rattle.g4_recursion.specs.Checking.{HaveNoFault};
ghost use Rattle.g4_source.specs.Refusals.{Answers};
ghost use Rattle.g4_checks.specs.Checking.{IsChecked, IsFault};
ghost use Rattle.g4_checks.specs.References.{HasNoClash};

use crate::check_references;
use crate::fault::CheckFault;
use g4_recursion::check_recursion;
use g4_source::{Refused, Source, passed};
use std::alloc::Global;

/// Looks for the first fault of what the grammar names.
fn references_checked(alloc: Global, source: &Source) -> Result<(), Refused<CheckFault>>
    ensures { Answers (λ _. HasNoClash source.now) (IsFault source.now) result }
{
    passed(check_references(alloc, source))
}

/// Looks for the first fault of how the rules of the grammar call each other, where all that they name is there.
fn recursion_checked(alloc: Global, source: &Source) -> Result<(), Refused<CheckFault>>
    requires { HasNoClash source.now }
    ensures { Answers (λ _. HaveNoFault source.now.rules) (IsFault source.now) result }
{
    passed(check_recursion(alloc, source))
}

/// Looks for the first fault of the grammar: of the first kind that has one, the first in order of the rules, those of all modes in
/// order of the text, and then of the text. Where there is none, each reference is to one of the rules, and the rules can be run: no
/// loop can be empty, each rule with an operator has a primary, no operator can be passed without reading, and no rule reaches itself
/// by left calls.
///
/// # Errors
/// That fault, or no memory.
pub fn check(alloc: Global, source: &Source) -> Result<(), Refused<CheckFault>>
    ensures checked { IsChecked source.now result }
    ensures defined { OnOk result (RulesAreDefined source.now.rules) }
    ensures run { OnOk result (RulesCanRun source.now.rules) }
{
    references_checked(alloc, source)?;
    recursion_checked(alloc, source)?;
    Ok(())
}
