// The rules of a lexer with their token types.
use g4_base::Sequence;
use g4_source::LexerRule;

/// The rules of a lexer, as its network is made of them, and the token type of each.
#[derive(Drop)]
pub struct LexerRules {
    /// The rules of the literals that have tokens of their own, by type. None is a fragment.
    pub literals: Sequence<LexerRule>,
    /// The lexer rules of all modes in order of the text, fragments too.
    pub rules: Sequence<LexerRule>,
    /// The token type of each rule: of the literals' rules, and then of the lexer rules. Types count from 1, and a fragment has none,
    /// which is 0.
    pub types: Sequence<u32>,
}
