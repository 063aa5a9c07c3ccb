// Sets of stacks as nodes of a graph in which equal sets have equal numbers.
#![tactic(auto)]

mod content;
mod copying;
mod graph;
mod joining;
mod keeping;
mod laws;
mod lowering;
mod next;
mod shape;
mod sum;
mod table;

pub use graph::Graph;
pub use keeping::keeps_is_transitive;
pub use laws::{lists_are_canonical, lists_are_exact, lists_are_in_order};
pub use lowering::Part;
pub use shape::Shape;
pub use sum::{MODULUS, SPREAD, Sum, mixed};
