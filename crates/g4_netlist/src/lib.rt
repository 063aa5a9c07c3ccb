// The listing of a rule's states in a parser's network: the name of the rule, then a line for each of its states, by number.
#![tactic(auto)]

mod law;
mod line;
mod listing;
mod making;
mod search;
mod shown;

pub use law::one_listing;
pub use line::push_name;
pub use listing::list_rule;
pub use shown::push_set;
