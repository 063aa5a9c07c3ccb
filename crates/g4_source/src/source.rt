// A grammar as its text gives it.
use crate::{Prequel, Rule};
use g4_base::{Place, Sequence, Text};

/// A grammar as it is written: its first word's place, its kind and name, what comes before its rules, its rules of all modes and
/// the names of its modes, each in order of the text.
#[derive(Drop)]
pub struct Source {
    pub place: Place,
    pub kind: GrammarKind,
    pub name: Text,
    pub prequels: Sequence<Prequel>,
    pub rules: Sequence<Rule>,
    /// The names after `mode`, which only a lexer grammar has. A mode can be named more than once, and can have no rule.
    pub modes: Sequence<Text>,
}

/// What rules a grammar can have.
#[derive(Clone, Copy, Debug, PartialEq, Eq)]
pub enum GrammarKind {
    /// `grammar`: rules of both kinds.
    Combined,
    /// `lexer grammar`: lexer rules alone.
    Lexer,
    /// `parser grammar`: parser rules alone.
    Parser,
}
