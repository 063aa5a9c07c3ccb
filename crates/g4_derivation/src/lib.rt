// Laws of the networks of parser rules: what walks through them read, a call being one letter, and what they spell.
// From where a rule starts exactly what the rule derives is spelled; levels are only in loops to which calls at a level return.
#![tactic(auto)]

mod law;
mod walks;

pub use law::{levels_are_in_loops, spelled_where_derived};
pub use walks::{
    levels_begin_operators, levels_follow_whole_alternatives, no_edge_to_outer_starts,
    only_outer_starts_begin, rules_start_with_alternatives, rules_start_with_one, walks_derive,
    walks_over_levels_derive,
};
