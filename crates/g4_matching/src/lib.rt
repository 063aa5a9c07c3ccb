// The next match of a lexer: the best of the ordered list of its network, by lists that are learned as they are made.
// Lists are kept by the classes of characters that the network's edges distinguish.
#![tactic(auto)]

mod automaton;
mod bounds;
mod cells;
mod classes;
mod entry;
mod expanding;
mod found;
mod joining;
mod learned;
mod listed;
mod listing;
mod matcher;
mod modes;
mod pairs;
mod partition;
mod places;
mod returns;
mod rule_end;
mod waiting;
mod walking;

pub use classes::CharClasses;
pub use found::Match;
pub use matcher::Matcher;
