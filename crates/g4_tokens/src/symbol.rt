// Symbols: token types from 1 on, and two more that every token list ends in.

/// The greatest token type of a grammar. Types past it, below `EOF`, are of the tags of patterns.
pub const MOST_TYPES: u32 = 4_096;

/// The symbol of `EOF`, which appears four times after the tokens of a file.
pub const EOF: u32 = 65_536;

/// The last symbol of every token list. No grammar can name it.
pub const END: u32 = 65_537;
