// Alternatives that begin with a call of their own rule.
ghost use Rattle.std.specs.Prelude.{◌↔◌, IsTrue, List};
ghost use Rattle.g4_source.specs.Elements.{Alternatives};
ghost use Rattle.g4_horn.specs.Follows.{Tells};
ghost use Rattle.g4_recursion.specs.declared.lead.Lead.{Lead as Atom};
ghost use Rattle.g4_recursion.specs.Leads.{IsNullableRule};
ghost use Rattle.g4_recursion.specs.AtomLeads.{AllBegin, IsEmptyAfterCall, IsEmptyAt};
ghost use Rattle.g4_recursion.specs.Least.{FindsLeast};

use crate::{Lead, after_call, are_nullable};
use g4_source::Elements;

/// Whether there are alternatives, and each begins with a plain call of the rule of this number.
pub fn all_begin(number: usize, alternatives: &[Elements<Lead>]) -> bool
    ensures { IsTrue result ↔ AllBegin number alternatives.now }
{
    for elements in alternatives {
        if after_call(number, elements.as_slice()).is_none() {
            return false;
        }
    }
    !alternatives.is_empty()
}

/// Whether the elements begin with a plain call of the rule of this number, and what follows derives the empty word.
fn is_empty_after_call(nullable: &[bool], number: usize, elements: &Elements<Lead>) -> bool
    ensures { (rules : List (Alternatives Atom)) → Tells nullable.now (IsNullableRule rules)
        → IsTrue result ↔ IsEmptyAfterCall rules number elements.now }
{
    match after_call(number, elements.as_slice()) {
        Some(rest) => are_nullable(nullable, rest),
        None => false,
    }
}

/// The place of the first alternative that begins with a plain call of the rule of this number and goes on with what derives
/// the empty word, where it is given which rules do.
pub fn first_empty(
    nullable: &[bool],
    number: usize,
    alternatives: &[Elements<Lead>],
) -> Option<usize>
    ensures { (rules : List (Alternatives Atom)) → Tells nullable.now (IsNullableRule rules)
        → FindsLeast (IsEmptyAt rules number alternatives.now) result }
{
    for (place, elements) in alternatives.iter().enumerate() {
        if is_empty_after_call(nullable, number, elements) {
            return Some(place);
        }
    }
    None
}
