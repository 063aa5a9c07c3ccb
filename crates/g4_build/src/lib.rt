// From parser rules whose atoms are steps to their network.
#![tactic(auto)]

mod builder;
mod drawing;
mod numbering;
mod width;

pub use builder::{BuildFault, build};
