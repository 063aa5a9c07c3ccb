// A grammar that files are parsed with.
use g4_base::{Sequence, Text};
use g4_grammar::ParserRules;
use g4_lexer::Lexer;
use g4_preds::Predicate;

/// What is known of a grammar that files are parsed with, beside its network, and the flags that its predicates find given.
#[derive(Drop)]
pub struct Grammar {
    /// The names of the parser rules, which count from 1.
    pub names: Sequence<Text>,
    /// The parser rules as they are written, with what their atoms are in a network.
    pub rules: ParserRules,
    /// The predicates of the parser rules, by their numbers.
    pub predicates: Sequence<Predicate>,
    /// The flags that are given.
    pub flags: Sequence<Text>,
    /// What is shown of each token type from 1 on.
    pub shown: Sequence<Text>,
    pub lexer: Lexer,
}
