// Prediction with full stacks from sets that have a hole in the place of the parser's stack.
#![tactic(auto)]

mod law;

pub use law::{down_means, frames_choose, lowering_means, next_means, start_means, verdicts_stay};
