// A grammar is fetched with all that it imports, each file once, and with its vocabulary.
#![tactic(auto)]

mod by_name;
mod closure;
mod fetching;
mod grammar;
mod law;
mod lexer;
mod names;
mod opening;
mod reached;
mod reading;
mod stop;
mod tables;
mod task;
mod vocabulary;

pub use closure::{Fetched, GrammarFile, Import, WithImports};
pub use grammar::fetch_grammar;
pub use law::{each_once, ends_at_its_stop, one_fetched};
pub use stop::{FileFault, Halt, Stop};
