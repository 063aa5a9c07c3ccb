// The path of a verdict.
use crate::verdict::Verdict;
use g4_base::Sequence;
use g4_configs::Snapshot;

/// What a symbol led to.
#[derive(Drop)]
pub enum Led {
    /// The next set of configurations, after which SLL looks at another symbol.
    Row(Snapshot),
    /// The verdict: SLL ends at the next set.
    Ended(Verdict),
}

/// A symbol that was looked at, and what it led to.
#[derive(Drop)]
pub struct Looked {
    pub symbol: u32,
    pub led: Led,
}

/// The path of a verdict: the state of the decision, its start set, and each symbol that was looked at, in order. The last one
/// led to the verdict, and each one before it to a set.
#[derive(Drop)]
pub struct Path {
    pub decision: u32,
    pub start: Snapshot,
    pub looked: Sequence<Looked>,
}
