// The parse run over a network, whose decisions go by what is learned, and the tree that it gives.
#![tactic(auto)]

mod choosing;
mod faults;
mod parser;
mod predicates;
mod runs;
mod state;
mod trial;

pub use parser::ParseFault;
pub use predicates::{NoPredicates, Opened, Predicates};
pub use runs::parse;
