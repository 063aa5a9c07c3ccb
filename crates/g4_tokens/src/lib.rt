// Symbols, which are the token types and what ends a list of tokens, as sets kept by their ranges; and the tokens of a file.
// A set of symbols is the list of its members, least first.
#![tactic(auto)]

mod set;
mod symbol;
mod token;

pub use set::Symbols;
pub use symbol::{END, EOF, MOST_TYPES};
pub use token::{Token, Tokens};
