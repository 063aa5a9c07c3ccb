// The grammar of grammar texts.
#![tactic(auto)]

mod law;

pub use law::{first_stop, first_tokens, one_tree, text_or_stop};
