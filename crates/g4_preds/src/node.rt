// The parts of a predicate.
use g4_base::Text;

/// What a predicate tests.
#[derive(Drop)]
pub enum Test {
    /// `true` or `false`.
    Constant(bool),
    /// `flag(n)`: the flag n was given.
    Flag(Text),
    /// `inside(r)`: the rule r is open.
    Inside(Text),
    /// `text(k) == '..'`: the k-th token from here has this text. The first of them has the number 1.
    TextIs { nth: u32, text: Text },
}

/// A node of a predicate in postfix order: an operator takes the one or two predicates directly before it.
#[derive(Drop)]
pub enum Node {
    Operand(Test),
    Not,
    And,
    Or,
}
