// How rules are laid out in a network: the table of states and edges, and what it implies.
#![tactic(auto)]

mod law;

pub use law::{
    callers_are_returns, every_network_is_runnable, laid_without_predicates, never_comes_back,
    one_network, one_numbered_network, well_formed,
};
