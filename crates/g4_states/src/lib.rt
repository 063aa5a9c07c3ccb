// The states of rules while they are made, whatever their edges are labelled with: one text for the parser's network and for
// the lexer's.
#![tactic(auto)]

mod atom;
mod atomic;
mod calls;
mod count;
mod draft;
mod numbering;
mod rule;

pub use atom::Atom;
pub use atomic::{Atomic, Body, LaidRule};
pub use calls::callers;
pub use count::past_rules;
pub use numbering::{number_rule, number_rules, zeros};
pub use rule::{heads, lay_rules};
