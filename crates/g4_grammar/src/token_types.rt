// The token types of a grammar.
use g4_base::{Sequence, Text};
use g4_source::Literal;

/// The token types of a grammar, which count from 1.
#[derive(Drop)]
pub struct TokenTypes {
    /// What is shown of each type from 1 on: its literal as written where it has one, else its name.
    pub shown: Sequence<Text>,
    /// The types that have names, in the order in which they were given.
    pub names: Sequence<TokenName>,
    /// The types that only literals of parser rules have, by type.
    pub literals: Sequence<TokenLiteral>,
}

/// The name of a token type.
#[derive(Drop)]
pub struct TokenName {
    pub name: Text,
    pub symbol: u32,
}

/// The literal of a token type.
#[derive(Drop)]
pub struct TokenLiteral {
    pub literal: Literal,
    pub symbol: u32,
}
