// The faults of how rules call each other.
ghost use Rattle.std.specs.Prelude.{◌≡◌, ◌+◌, IfOk};
ghost use Rattle.g4_source.specs.Refusals.{Answers};
ghost use Rattle.g4_recursion.specs.Checking.{HaveNoFault, IsFault};

use crate::grammar::grammar_of;
use g4_base::{Sequence, Text};
use g4_source::{Refused, Source};
use std::alloc::{AllocError, Global};

/// A rule that cannot be run for how rules call each other. The variants are in the order in which they are looked for.
#[derive(Drop)]
pub enum RecursionFault {
    /// A parser rule each of whose alternatives begins with the rule itself.
    NoPrimary(Text),
    /// A parser rule, and the number of its alternative, from 1, that begins with the rule itself and goes on with what derives
    /// the empty word.
    EmptyOperator(Text, u32),
    /// A rule with a loop whose body derives the empty word.
    EmptyLoop(Text),
    /// Rules of which each, as it is run, calls the next before anything is read, and the last the first.
    LeftCycle(Sequence<Text>),
}

/// The number, from 1, of the alternative at this place.
fn number_at(place: usize) -> Result<u32, AllocError>
    ensures { IfOk result (λ number. number ≡ place + 1) }
{
    if place < u32::MAX as usize {
        Ok(place as u32 + 1)
    } else {
        Err(AllocError)
    }
}

/// Looks for the first fault: of the first kind that has one, the first in order of the rules, those of all modes in order of the
/// text.
///
/// # Errors
/// That fault, or no memory, also where there are more rules, blocks or alternatives than numbers of 32 bits.
pub fn check_recursion(alloc: Global, source: &Source) -> Result<(), Refused<RecursionFault>>
    ensures { Answers (λ _. HaveNoFault source.now.rules) (IsFault source.now.rules) result }
{
    let grammar = grammar_of(alloc, source)?;
    if let Some(rule) = grammar.first_without_primary() {
        let fault = RecursionFault::NoPrimary(grammar.name(alloc, rule)?);
        return Err(Refused::Fault(fault));
    }
    if let Some((rule, place)) = grammar.first_empty_operator() {
        let name = grammar.name(alloc, rule)?;
        let fault = RecursionFault::EmptyOperator(name, number_at(place)?);
        return Err(Refused::Fault(fault));
    }
    if let Some(rule) = grammar.first_empty_loop() {
        let fault = RecursionFault::EmptyLoop(grammar.name(alloc, rule)?);
        return Err(Refused::Fault(fault));
    }
    if let Some(cycle) = grammar.first_left_cycle(alloc)? {
        let names = grammar.names(alloc, cycle.as_slice())?;
        return Err(Refused::Fault(RecursionFault::LeftCycle(names)));
    }
    Ok(())
}
