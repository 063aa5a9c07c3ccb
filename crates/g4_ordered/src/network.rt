// The network of a lexer.
use g4_chars::CharSet;
use g4_net::Network;

/// What an edge of the lexer's network asks for: a character of a set, or that no character is left.
#[derive(Drop)]
pub enum Reads {
    /// A character of the set, which the edge takes.
    Characters(CharSet),
    /// That no character is left. The edge takes nothing.
    EndOfText,
}

/// The network of a lexer.
pub type LexerNetwork = Network<Reads>;
