// Laws of rules as they are written: each derives the same words as it does once the rules are rewritten, a token list has a tree
// where they derive it, and trees keep precedence.
#![tactic(auto)]

mod law;

pub use law::{
    left_recursion_is_repetition, rewriting_keeps_derivation, rewriting_keeps_words,
    trees_are_derived_as_written, trees_keep_precedence, trees_where_derived_as_written,
};
