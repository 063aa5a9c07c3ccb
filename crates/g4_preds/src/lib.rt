// The text of a semantic predicate, the tree that the grammar of predicates gives it, and its value.
#![tactic(auto)]

mod branching;
mod character;
mod fault;
mod law;
mod literal;
mod nesting;
mod node;
mod operators;
mod parser;
mod piece;
mod predicate;
mod scanner;
mod surroundings;
mod test_reader;
mod token;

pub use law::one_reading;
pub use nesting::MOST_NESTED;
pub use node::{Node, Test};
pub use predicate::{Predicate, PredicateFault};
pub use surroundings::Surroundings;
