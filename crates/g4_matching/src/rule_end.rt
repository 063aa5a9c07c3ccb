// Ends of rules in a list.
ghost use Rattle.std.specs.Prelude.{◌↔◌, ◌≤◌, IsTrue, IsSomeAnd};
ghost use Rattle.g4_matching.specs.Ends.{EndsAt, KeptAt};

use crate::entry::Entry;
use g4_net::State;
use g4_ordered::{LexerNetwork, Reads};

/// The end of a rule's alternative.
#[derive(Clone, Copy)]
pub(crate) struct RuleEnd {
    pub rule: u32,
    pub alternative: u32,
}

/// Whether an entry is at its rule's end.
pub(crate) fn is_at_end(net: &LexerNetwork, entry: &Entry) -> bool
    ensures { IsTrue result ↔ EndsAt net.now entry.now }
{
    match net.states.as_slice().get(entry.state) {
        Some(State::End(_)) => entry.returns == 0,
        _ => false,
    }
}

/// Whether an entry is kept.
pub(crate) fn is_kept(net: &LexerNetwork, entry: &Entry) -> bool
    ensures { IsTrue result ↔ KeptAt net.now entry.now }
{
    match net.states.as_slice().get(entry.state) {
        Some(State::Edge(Reads::Characters(_), _)) => true,
        Some(State::End(_)) => entry.returns == 0,
        _ => false,
    }
}
