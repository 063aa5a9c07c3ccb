// Whether a network is well formed.
#![tactic(auto)]

mod callers;
mod check;
mod members;
mod nullable;
mod numbers;
mod steps;

pub use check::check_net;
