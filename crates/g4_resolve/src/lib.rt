// From the parser rules of a checked grammar as they are written to rules whose atoms are steps of a network: tokens and literals become
// the symbols that they name in the vocabulary, references calls by number, and predicates the numbers of their texts.
#![tactic(auto)]

mod law;
mod predicates;
mod resolving;
mod texts;

pub use law::{
    predicates_have_their_texts, predicates_of_one_number, rules_derive_by_name,
    untested_rules_are_unpredicated,
};
pub use resolving::resolve;
