//! The files of a run, dealt to the hands of workers. A hand takes its own files first, and then steals from the other hands.
#![tactic(auto)]

mod deal;
mod hand;
mod pile;
mod row;
mod seat;
pub mod share;
mod thief;

pub use deal::{Hands, MOST_FILES, MOST_JOBS};
pub use hand::Hand;
