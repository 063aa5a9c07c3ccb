// An entry of a table of token numbers.
use g4_base::{Sequence, Text};

/// What has a number.
#[derive(Drop)]
pub enum TokenKey {
    /// A token name.
    Name(Text),
    /// A literal, by the characters that it represents.
    Literal(Sequence<char>),
}

/// A token name or a literal, and its number.
#[derive(Drop)]
pub struct TokenEntry {
    pub key: TokenKey,
    /// The name, or the literal with its quotes, as the file first writes it.
    pub written: Text,
    pub number: u32,
}
