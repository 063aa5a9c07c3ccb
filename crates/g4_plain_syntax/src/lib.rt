// The grammar of grammar texts with no lookahead, and what is lost with one token of lookahead.
#![tactic(auto)]

mod law;

pub use law::{derivation_read, one_derivation, reading_derived};
