// The two kinds of rules.

/// Of which kind a rule is.
#[derive(Clone, Copy, Debug, PartialEq, Eq)]
pub enum RuleKind {
    Parser,
    Lexer,
}
