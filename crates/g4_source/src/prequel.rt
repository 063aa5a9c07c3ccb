// What comes before the rules of a grammar.
use crate::Name;
use g4_base::{Place, Sequence, Text};

/// What comes before the rules, but named actions, which are passed over. The places are those of the first words.
#[derive(Drop)]
pub enum Prequel {
    Options(Sequence<Setting>),
    /// Grammars by their names in files.
    Import(Place, Sequence<Text>),
    Tokens(Place, Sequence<Text>),
    Channels(Place, Sequence<Text>),
}

/// An option and its value.
#[derive(Drop)]
pub struct Setting {
    pub name: Name,
    pub value: OptionValue,
}

/// The value of an option. Literals, numbers and actions are as they are written.
#[derive(Drop)]
pub enum OptionValue {
    /// One name, or more with dots between.
    Names(Sequence<Text>),
    Literal(Text),
    Number(Text),
    Action(Text),
    /// `*`.
    Star,
}
