// What the rules of a lexer's network spell: what they derive as they are written.
#![tactic(auto)]

mod law;

pub use law::{
    end_of_file_takes_nothing, greedy_or_not, greedy_where_written, match_by_derivation,
    matches_where_derived, spelled_where_derived, started_where_written,
};
