// Whether a tree is one of a grammar over a list of tokens.
#![tactic(auto)]

mod check;
mod child;
mod ending;
mod matching;
mod shifting;
mod standing;

pub use check::check_tree;
