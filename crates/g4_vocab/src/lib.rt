// Whether the rules of a grammar's source have names of their own; and from a source and a table of numbers to the token types that the
// source names.
#![tactic(auto)]

mod by_type;
mod commanded;
mod declared;
mod entries;
mod faces;
mod fault;
mod halves;
mod kinds;
mod law;
mod literal;
mod named;
mod numbering;
mod own;
mod references;
mod symbols;
mod twice;
mod types;
mod vocabulary;
mod wanted;
mod wholes;

pub use fault::{MOST_RULES, NumberFault};
pub use law::{given_numbers_kept, new_numbers_differ, one_naming, types_count_from_one};
pub use numbering::{first_own_literal, number};
pub use twice::{NameFault, check_names};
pub use vocabulary::Vocabulary;
