// A grammar that was fetched with all that it imports becomes one grammar: no file has a rule name twice, and each import is of a kind
// that its grammar can import.
#![tactic(auto)]

mod composite;
mod fault;
mod kinds;
mod law;
mod modes;
mod twice;

pub use composite::{Composite, Composites, integrate};
pub use fault::ImportFault;
pub use law::{main_rules_win, one_integration};
