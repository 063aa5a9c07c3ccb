// What is checked of a grammar once it is read and numbered: the first fault of eleven kinds is reported.
// Seven are of what its rules name and of their labels, four of how its rules call each other (`g4_recursion`).
// Of a grammar without fault the predicates of its parser rules are read.
#![tactic(auto)]

mod atoms;
mod capital;
mod channels;
mod checking;
mod clashes;
mod commands;
mod fault;
mod holders;
mod inside;
mod labels;
mod law;
mod modes;
mod names;
mod parts;
mod predicates;
mod readings;
mod reference_law;
mod references;
mod rule_predicates;
mod undefined;

pub use checking::check;
pub use fault::CheckFault;
pub use holders::holder_of;
pub use law::{no_predicates, one_check, one_holder, one_predicates};
pub use reference_law::{one_reference_check, text_between_braces};
pub use references::{ReferenceFault, check_references};
pub use rule_predicates::predicates_of;
