// A grammar and the grammars that it imports, as one.
#![tactic(auto)]

mod importing;
mod law;
mod merging;
mod names;
mod parts;

pub use importing::{can_import, imported_names};
pub use law::{each_name_there, main_rules_first, names_differ, twice_is_once};
pub use merging::{Merged, merge};
