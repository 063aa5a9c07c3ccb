// What was learned of the decisions of a parser, shared by threads: a store of rows, starts and cells, which a walk only reads and
// one learner at a time fills; and the parser's network with what a decision asks of it by a look-up.
#![tactic(auto)]

mod decision_net;
mod guards;
mod levels;
mod parsing;
mod path;
mod row;
mod starts;
mod store;
mod target;
mod tests;
mod walk;

pub use decision_net::DecisionNet;
pub use guards::MOST_ALTERNATIVES;
pub use parsing::Parsing;
pub use row::Row;
pub use store::{Learnings, MOST_CELLS, MOST_ROWS, OpenFault, Opened, Pass, Store, open};
pub use target::Target;
pub use walk::Walk;
