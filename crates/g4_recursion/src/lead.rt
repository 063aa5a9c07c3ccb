// Atoms by what they do before anything is read.
ghost use Rattle.std.specs.Prelude.{◌≡◌, ◌↔◌, IsTrue, List, slice_get, Some, true};
ghost use Rattle.g4_source.specs.Elements.{atom as lone, Alternatives};
ghost use Rattle.g4_grammar.specs.LeftCalls.{Nullable};
ghost use Rattle.g4_horn.specs.Follows.{Tells};
ghost use Rattle.g4_recursion.specs.declared.lead.Lead.{Lead as Atom};
ghost use Rattle.g4_recursion.specs.Leads.{ReadsLead, CallsLead, IsNullableRule};

use g4_base::Sequence;
use g4_source::Elements;

/// What an atom does before anything is read.
#[derive(Clone, Copy, Debug, PartialEq, Eq)]
pub enum Lead {
    /// It reads nothing.
    Empty,
    /// It reads something.
    Symbol,
    /// It calls the rule of this number, counted from 0. Where there is no such rule, it derives nothing.
    Call(u32),
}

/// A rule whose atoms are leads.
#[derive(Drop)]
pub struct LeadRule {
    /// Whether its alternatives that begin with a plain call of the rule itself are operators: it is run as a loop, and this call
    /// is a turn of the loop.
    pub may_have_operators: bool,
    /// The alternatives in order.
    pub alternatives: Sequence<Elements<Lead>>,
}

/// Whether the answer for a rule is yes: it is not where there is none.
pub(crate) fn says(answers: &[bool], rule: usize) -> bool
    ensures { IsTrue result ↔ (slice_get answers.now rule ≡ Some true) }
{
    answers.get(rule).copied().unwrap_or(false)
}

/// Whether the atom derives the empty word, by which rules do.
pub(crate) fn is_nullable(nullable: &[bool], lead: Lead) -> bool
    ensures { (rules : List (Alternatives Atom)) → Tells nullable.now (IsNullableRule rules)
        → IsTrue result ↔ Nullable ReadsLead CallsLead rules (lone lead) }
{
    match lead {
        Lead::Empty => true,
        Lead::Symbol => false,
        Lead::Call(rule) => says(nullable, rule as usize),
    }
}
