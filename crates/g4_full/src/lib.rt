// Prediction with full stacks: the answer at a decision with the parser's own stack, over the alternatives that a condition allows. That of
// full stacks is that over single stacks, which is the least allowed alternative that fits. Steps of framed sets are remembered.
#![tactic(auto)]

mod ask;
mod frames;
mod full;
mod live;
mod look;
mod lowering;
mod make;
mod memory;
mod shown;

pub use full::{Ahead, Settled, settle_over};
pub use memory::Memory;
