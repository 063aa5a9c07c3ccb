// The first cycle of a directed graph: the shortest one from the least node that is on a cycle.
#![tactic(auto)]

mod acyclic;
mod cycle;
mod distances;
mod graph;
mod law;
mod order;

pub use cycle::first_cycle;
pub use law::{on_a_cycle, one_answer, one_first_cycle};
