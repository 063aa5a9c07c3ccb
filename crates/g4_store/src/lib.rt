//! Words that many threads read and one at a time fills: the learned part of an automaton whose rows are contents.
#![tactic(auto)]

pub mod automaton;
pub mod bench;
pub mod board;
pub mod book;
mod learn;
pub mod listing;
pub mod pass;
pub mod path;
mod rows;
pub mod steps;
pub mod store;
pub mod view;
pub mod walk;
