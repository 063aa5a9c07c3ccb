// How much is learned: of a store that all threads have left, how many rows and how many edges the runs pass, or that there was no room.
#![tactic(auto)]

mod counts;
mod law;
mod tally;

pub use counts::Counts;
pub use law::one_tally;
pub use tally::{Tally, tally_line, tally_of};
