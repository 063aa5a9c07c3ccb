// Tree patterns: trees whose tokens may be tags; where in a tree they match, and what their tags are bound to there.
#![tactic(auto)]

mod binding;
mod ground;
mod lasts;
mod law;
mod matching;
mod pattern;
mod print;
mod stand;
mod subject;
mod text;
mod token;

pub use binding::{Binding, Bindings};
pub use law::{one_list_of_bindings, own_tag, tags_are_bound, without_tags};
pub use pattern::Pattern;
pub use subject::Subject;
pub use token::PatternToken;
