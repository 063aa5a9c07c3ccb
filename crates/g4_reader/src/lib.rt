// The grammar that a text is.
#![tactic(auto)]

mod fault;
mod law;
mod reader;

pub use law::{one_reading, some_reading};
pub use reader::{ReadFault, read_grammar};
