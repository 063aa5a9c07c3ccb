// The elements of rules that have no others in them, as they are written.
use crate::{Label, Name};
use g4_base::{Sequence, Text};
use g4_chars::CharSet;

/// An element of a rule that has no others in it, as it is written.
#[derive(Drop)]
pub struct Atom {
    /// The label, where the element has no sign. A label before an element with a sign is that of its block.
    pub label: Option<Label>,
    pub kind: AtomKind,
}

/// What an element without others in it is.
#[derive(Drop)]
pub enum AtomKind {
    /// A lower-case name: a parser rule.
    Rule(Name),
    /// An upper-case name: a token type, or in a lexer rule a lexer rule; or `EOF`.
    Token(Name),
    Literal(Literal),
    /// The characters from that of one literal to that of another, in a lexer rule.
    Range(Literal, Literal),
    /// One character of a set, in a lexer rule.
    Set(CharSet),
    /// `.`: any token, or in a lexer rule any character.
    Any,
    /// `~` in a parser rule: any token but these.
    NotTokens(Sequence<TokenReference>),
    /// `~` in a lexer rule: any character but those of the set.
    NotCharacters(CharSet),
    /// An action, whose text is passed over.
    Action,
    /// A predicate: its action, braces included.
    Predicate(Name),
}

/// A literal: the characters that it represents, and its text as written, quotes included.
#[derive(Drop)]
pub struct Literal {
    pub characters: Sequence<char>,
    pub written: Text,
}

/// A token type by its name or its literal.
#[derive(Drop)]
pub enum TokenReference {
    Token(Text),
    Literal(Literal),
}
