// A list that is kept.
ghost use Rattle.std.specs.Prelude.{◌≡◌, ◌<◌, IfSome, true};

use crate::entry::Entry;
use crate::rule_end::RuleEnd;

/// What the hash of entries is multiplied by, so that each of its bits counts: an odd number near 2 ^ 64 divided by the golden ratio.
const SPREAD: u64 = 0x9E37_79B9_7F4A_7C15;

/// A list that is kept, the end that it gives, and the number of an earlier one whose entries have the same hash.
#[derive(Drop)]
pub(crate) struct Learned {
    pub entries: Vec<Entry>,
    pub end: Option<RuleEnd>,
    pub earlier: Option<u32>,
}

/// The hash of what came before and one entry more.
fn hash_on(hash: u64, entry: &Entry) -> u64 {
    let state = (entry.state as u64).wrapping_mul(SPREAD);
    let rest = (hash ^ entry.returns as u64).rotate_left(32) ^ entry.rule as u64;
    (state ^ rest).wrapping_mul(SPREAD)
}

/// The hash of entries, by which lists are looked for. Most lists have one of their own.
pub(crate) fn hash_of(entries: &[Entry]) -> u64 {
    let mut hash = 0;
    for entry in entries {
        hash = hash_on(hash, entry);
    }
    hash
}

/// The number, where it is less than that other one.
pub(crate) fn earlier_than(number: Option<u32>, other: u32) -> Option<u32>
    ensures { IfSome result (λ n. n < other) }
{
    match number {
        Some(n) if n < other => Some(n),
        _ => None,
    }
}

/// Whether the entries are the same, in the same order.
pub(crate) fn are_same(entries: &[Entry], others: &[Entry]) -> bool
    ensures { result ≡ true → entries.now ≡ others.now }
{
    entries == others
}
