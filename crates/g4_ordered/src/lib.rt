// The ordered list of a lexer's configurations: which are in it after each character, in which order, and what that implies.
#![tactic(auto)]

mod law;
mod network;
mod start;

pub use law::{
    alone_where_spelled, ended_where_spelled, first_has_all, match_by_rules, no_repetition,
    one_list, there_is_a_list,
};
pub use network::{LexerNetwork, Reads};
pub use start::Start;
