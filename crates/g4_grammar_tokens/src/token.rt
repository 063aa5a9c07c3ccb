// A token of a grammar text.
use g4_base::Place;

/// What a token is.
#[derive(Clone, Copy, Debug, PartialEq, Eq)]
pub enum Kind {
    /// A name whose first letter is no upper-case letter.
    Lower,
    /// A name whose first letter is an upper-case letter.
    Upper,
    /// `'..'` on one line.
    Literal,
    /// `[..]` in the body of a rule with an upper-case name.
    Set,
    /// `[..]` elsewhere.
    Arguments,
    /// `{..}` with its braces balanced.
    Action,
    /// Decimal digits.
    Number,
    /// `{` after `options`, `tokens` or `channels`.
    LeftBrace,
    /// The `}` of such a brace.
    RightBrace,
    /// `:`.
    Colon,
    /// `::`.
    DoubleColon,
    /// `;`.
    Semicolon,
    /// `|`.
    Bar,
    /// `(`.
    LeftParenthesis,
    /// `)`.
    RightParenthesis,
    /// `?`.
    Question,
    /// `*`.
    Star,
    /// `+`.
    Plus,
    /// `+=`.
    PlusEquals,
    /// `.`.
    Dot,
    /// `..`.
    DoubleDot,
    /// `~`.
    Tilde,
    /// `=`.
    Equals,
    /// `#`.
    Hash,
    /// `->`.
    Arrow,
    /// `,`.
    Comma,
    /// `@`.
    At,
    /// `<`.
    Less,
    /// `>`.
    Greater,
    /// A character at which no token begins.
    Stray,
}

/// A token: its kind, its place, and its bytes from `start` up to `end`, `end` left out.
#[derive(Clone, Copy, Debug, PartialEq, Eq)]
pub struct Token {
    pub kind: Kind,
    pub place: Place,
    pub start: usize,
    pub end: usize,
}
