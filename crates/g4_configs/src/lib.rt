// Sets of configurations: for each state and alternative a set of stacks, which is a node of a graph.
#![tactic(auto)]

mod bottom;
mod configs;
mod group;
mod kept;
mod lowering;
mod merging;
mod ordered;
mod set;
mod snapshot;
mod verdicts;

pub use configs::Configs;
pub use group::Group;
pub use lowering::Lowered;
pub use snapshot::Snapshot;
