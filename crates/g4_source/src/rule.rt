// The rules of a grammar.
ghost use Rattle.std.specs.Prelude.{◌≡◌};
ghost use Rattle.g4_source.specs.Rules.{rule_name};

use crate::{Atom, Elements, Name};
use g4_base::{Sequence, Text};

/// A rule: a lower-case name begins a parser rule, an upper-case name a lexer rule.
#[derive(Drop)]
pub enum Rule {
    Parser(ParserRule<Atom>),
    Lexer(LexerRule),
}

impl Rule {
    /// The name of the rule.
    pub fn name(&self) -> &str
        ensures { result.now ≡ rule_name self.now }
    {
        match self {
            Rule::Parser(rule) => rule.name.as_str(),
            Rule::Lexer(rule) => rule.name.as_str(),
        }
    }
}

/// A parser rule over some kind of atoms: its alternatives in order. Its modifier, arguments and actions are passed over.
#[derive(Drop)]
pub struct ParserRule<A> {
    pub name: Text,
    pub alternatives: Sequence<RuleAlternative<A>>,
}

/// An alternative of a parser rule.
#[derive(Drop)]
pub struct RuleAlternative<A> {
    /// Whether it is right associative: `<assoc=right>` begins it, or follows one of its elements. In brackets it says nothing.
    pub right: bool,
    pub elements: Elements<A>,
    /// The name after its `#`.
    pub label: Option<Text>,
}

/// A lexer rule: its alternatives in order.
#[derive(Drop)]
pub struct LexerRule {
    /// The mode that it is in, by the name after the last `mode` before it; where there is none, the default mode.
    pub mode: Option<Text>,
    pub fragment: bool,
    pub name: Text,
    pub alternatives: Sequence<LexerAlternative>,
}

/// An alternative of a lexer rule: its elements, and its commands in order.
#[derive(Drop)]
pub struct LexerAlternative {
    pub elements: Elements<Atom>,
    pub commands: Sequence<Command>,
}

/// A command of a lexer rule, such as `skip` or `channel(HIDDEN)`.
#[derive(Drop)]
pub struct Command {
    pub name: Name,
    pub argument: Option<Argument>,
}

/// The argument of a command.
#[derive(Drop)]
pub enum Argument {
    Name(Text),
    /// Decimal digits.
    Number(Text),
}
