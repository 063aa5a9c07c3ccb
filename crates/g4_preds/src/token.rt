// A token of a predicate.
use g4_base::Text;

/// A token of a predicate.
#[derive(Drop)]
pub enum Token {
    /// A letter, and the letters, digits and `_` after it.
    Name(Text),
    /// One digit from 1 to 8.
    Digit(u32),
    /// The text that a literal represents.
    Literal(Text),
    /// `(`.
    LeftParenthesis,
    /// `)`.
    RightParenthesis,
    /// `!`.
    Exclamation,
    /// `&&`.
    DoubleAmpersand,
    /// `||`.
    DoubleBar,
    /// `==`.
    DoubleEquals,
}
