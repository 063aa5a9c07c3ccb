// What SLL says at a decision.

/// What SLL says at a decision. Symbols count from 0, the decision's first.
#[derive(Clone, Copy, Debug, PartialEq, Eq)]
pub enum Verdict {
    /// The one alternative that is left.
    Answer(u32),
    /// None is left after this symbol.
    ErrorAt(u32),
    /// After this symbol the parser's stack matters.
    Sensitive(u32),
}
