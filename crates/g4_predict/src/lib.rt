// SLL: the verdict of a decision with its path, also from a set that was kept, over the alternatives that are allowed.
#![tactic(auto)]

mod path;
mod sll;
mod verdict;

pub use path::{Led, Looked, Path};
pub use sll::{Seen, look, simulate, simulate_from, start_set};
pub use verdict::Verdict;
