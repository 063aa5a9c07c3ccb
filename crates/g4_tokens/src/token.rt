// The tokens of a file.
use g4_base::{Octets, Place, Sequence};

/// A token: its symbol, its channel, its place, and the bytes of the file from `start` up to `end`, `end` left out.
#[derive(Clone, Copy, Debug, PartialEq, Eq)]
pub struct Token {
    pub symbol: u32,
    pub channel: u32,
    pub place: Place,
    pub start: u32,
    pub end: u32,
}

/// The tokens of a file, whose texts are parts of its bytes.
#[derive(Drop)]
pub struct Tokens {
    /// The bytes of the file.
    pub bytes: Octets,
    /// The tokens of all channels in order.
    pub all: Sequence<Token>,
    /// What the parser sees: the tokens of channel 0 in order, then four of EOF and one of END at the end of the file.
    pub list: Sequence<Token>,
}
