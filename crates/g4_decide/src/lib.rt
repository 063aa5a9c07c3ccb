// The alternative that prediction chooses at a decision, by what is learned: SLL's verdict is that of a walk along the store, and where
// the walk stops, a step of SLL is made and learned, and the walk goes on from there.
#![tactic(auto)]

mod asking;
mod by_stack;
mod deciding;
mod fault;
mod onward;
mod stepping;
mod within;

pub use asking::ask;
pub use by_stack::decide_by_stack;
pub use deciding::decide;
pub use fault::DecideFault;
pub use within::{Decided, decide_far};
