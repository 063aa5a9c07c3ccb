// Left-recursive rules as primaries and operators: what calls the rule itself at an end is given a level of precedence.
#![tactic(auto)]

mod copies;
mod kinds;
mod laid_rules;
mod law;
mod places;
mod rewriting;

pub use laid_rules::LaidRules;
pub use law::{
    each_alternative_is_kept, network_without_predicates, only_left_recursive_rules_have_operators,
    rewritten_without_predicates,
};
pub use rewriting::rewrite;
