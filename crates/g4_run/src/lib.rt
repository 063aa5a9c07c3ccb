// The parse run over a network, as a relation, and the laws of it: a run has at most one ending, only predicates fail, and a token
// list has a tree where the rules derive it, as they are run.
#![tactic(auto)]

mod law;

pub use law::{
    derived_words_have_trees, one_ending, predicates_alone_fail, trees_are_derived,
    trials_go_as_runs,
};
