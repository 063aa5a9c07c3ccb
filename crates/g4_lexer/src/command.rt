// The commands of lexer rules.

/// A command of a rule's alternative. Modes and channels are numbers, the first mode and the parser's channel 0.
#[derive(Clone, Copy, Debug, PartialEq, Eq)]
pub enum LexerCommand {
    /// The match makes no token.
    Skip,
    /// The token goes on with the next match.
    More,
    /// The token has this type.
    Type(u32),
    /// The token is on this channel.
    Channel(u32),
    /// The current mode is this one.
    Mode(u32),
    /// The current mode is pushed, and then it is this one.
    PushMode(u32),
    /// The current mode is that pushed last.
    PopMode,
}
