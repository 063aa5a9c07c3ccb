// Grammars as they are written: all that later stages need of a grammar text, in order of the text.
// The elements of a rule are a tree over any atoms, and each stage is a substitution that puts an element in the place of each atom.
// The rules of both kinds are lent one by one.
#![tactic(auto)]

mod atom;
mod element;
mod kind;
mod name;
mod prequel;
mod refused;
mod rule;
mod rules;
mod source;
mod substitution;

pub use atom::{Atom, AtomKind, Literal, TokenReference};
pub use element::{Alternative, Element, Elements, Repeat, Suffix};
pub use kind::RuleKind;
pub use name::{Label, Name};
pub use prequel::{OptionValue, Prequel, Setting};
pub use refused::{Refused, TakesIn, passed};
pub use rule::{Argument, Command, LexerAlternative, LexerRule, ParserRule, Rule, RuleAlternative};
pub use rules::{RuleView, lexer_rules, parser_rules, views_of};
pub use source::{GrammarKind, Source};
pub use substitution::{Substitution, substituted};
