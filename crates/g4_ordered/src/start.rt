// Where matches may begin.

/// A place where a match may begin: an outer alternative of a rule, and its first state. Rules count from 0, alternatives from 1.
#[derive(Clone, Copy, Debug, PartialEq, Eq)]
pub struct Start {
    pub rule: u32,
    pub alternative: u32,
    pub state: u32,
}
