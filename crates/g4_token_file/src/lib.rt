// The numbers that a `.tokens` file gives token names and literals.
#![tactic(auto)]

mod entry;
mod fault;
mod law;
mod line;
mod numbers;
mod reader;
mod table;

pub use entry::{TokenEntry, TokenKey};
pub use fault::TokenFileFault;
pub use law::{numbers_given, numbers_kept, one_table};
pub use reader::read_tokens;
pub use table::TokenTable;
