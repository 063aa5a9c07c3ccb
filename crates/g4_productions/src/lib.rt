// The rules of a grammar text, and the whole of it, read production by production.
#![tactic(auto)]

mod excluded;
mod grammar;
mod law;
mod lexer_element;
mod lexer_rule;
mod literal;
mod nesting;
mod parser_element;
mod parser_rule;
mod reader;
mod set;
mod suffix;
mod token_set;

pub use law::one_grammar;
pub use nesting::MOST_OPEN;
pub use reader::{Stop, read_tokens};
