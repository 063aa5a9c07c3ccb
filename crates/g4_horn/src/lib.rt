// Definite Horn clauses over numbers: which numbers follow from them, in time linear in their size.
#![tactic(auto)]

mod chaining;
mod clause;

pub use chaining::consequences;
pub use clause::Clause;
