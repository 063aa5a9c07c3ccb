// The faults of what a grammar names.
ghost use Rattle.g4_source.specs.Refusals.{Answers};
ghost use Rattle.g4_checks.specs.References.{HasNoClash, IsFault};

use crate::channels::first_unknown_channel;
use crate::clashes::first_label_clash;
use crate::commands::first_unknown_command;
use crate::modes::first_unknown_mode;
use crate::parts::parts_of;
use crate::predicates::{first_lexer_predicate, first_unknown_predicate};
use crate::undefined::first_undefined_rule;
use g4_base::{Place, Text};
use g4_source::{Refused, Source};
use std::alloc::Global;

/// What a grammar names and is not there, or labels that clash. The variants are in the order in which they are looked for.
#[derive(Drop)]
pub enum ReferenceFault {
    /// A rule that an atom names, or that a predicate of a parser rule names in `inside(..)`, and that is not there.
    UndefinedRule(Text),
    /// A mode that a command takes, and that is not there.
    UnknownMode(Text),
    /// The name of a command that is none, or that has an argument which it does not take, or lacks one.
    UnknownCommand(Text),
    /// A channel that a command takes, and that is not there.
    UnknownChannel(Text),
    /// The place of a predicate in a lexer rule.
    LexerPredicate(Place),
    /// The place of a predicate in a parser rule, where the grammar of predicates does not give its text.
    UnknownPredicate(Place),
    /// A rule of whose alternatives some have a label and some have none; or a label that is in two rules, or that is the
    /// name of a parser rule with its first letter in upper case.
    LabelClash(Text),
}

/// Looks for the first fault: of the first kind that has one, the first in order of the rules, those of all modes in order of the
/// text, and then of the text.
///
/// # Errors
/// That fault, or no memory.
pub fn check_references(alloc: Global, source: &Source) -> Result<(), Refused<ReferenceFault>>
    ensures { Answers (λ _. HasNoClash source.now) (IsFault source.now) result }
{
    let parts = parts_of(alloc, source)?;
    if let Some(name) = first_undefined_rule(alloc, source, &parts)? {
        return Err(Refused::Fault(ReferenceFault::UndefinedRule(name)));
    }
    if let Some(name) = first_unknown_mode(alloc, source, &parts)? {
        return Err(Refused::Fault(ReferenceFault::UnknownMode(name)));
    }
    if let Some(name) = first_unknown_command(alloc, source, &parts)? {
        return Err(Refused::Fault(ReferenceFault::UnknownCommand(name)));
    }
    if let Some(name) = first_unknown_channel(alloc, source, &parts)? {
        return Err(Refused::Fault(ReferenceFault::UnknownChannel(name)));
    }
    if let Some(place) = first_lexer_predicate(source, &parts) {
        return Err(Refused::Fault(ReferenceFault::LexerPredicate(place)));
    }
    if let Some(place) = first_unknown_predicate(alloc, source, &parts)? {
        return Err(Refused::Fault(ReferenceFault::UnknownPredicate(place)));
    }
    if let Some(name) = first_label_clash(alloc, source, &parts)? {
        return Err(Refused::Fault(ReferenceFault::LabelClash(name)));
    }
    Ok(())
}
