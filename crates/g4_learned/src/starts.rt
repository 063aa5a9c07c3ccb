// The starts of the decisions: one for each guard.
ghost use Rattle.std.specs.Prelude.{◌≡◌, ◌≤◌, ◌<◌, ℕ, ◌+◌, ◌++◌, IfOk, OnOk, List, Some, length, map};
ghost use Rattle.g4_learned.specs.Guards.{AreGuardsOf};
ghost use Rattle.g4_learned.specs.Tables.{AreKeys, guard_of};
ghost use Rattle.g4_net.specs.Loops.{HasLoops};
ghost use Rattle.g4_net.specs.Network.{state_at};
ghost use Rattle.g4_net.specs.declared.network.TheConstants.{MOST_STATES};

use crate::guards::guards_of;
use g4_net::{ParserNetwork, State};
use g4_tokens::Symbols;
use std::alloc::{AllocError, Global};

/// For each state where its starts begin, and at the end how many there are; and for each start its state and its guard, least first.
#[derive(Drop)]
pub(crate) struct Starts {
    pub(crate) first: Vec<usize>,
    pub(crate) keys: Vec<(u32, u32)>,
}

/// Puts the starts of a state at the end.
fn push_starts(
    alloc: Global,
    net: &ParserNetwork,
    number: u32,
    state: &State<Symbols>,
    keys: &mut Vec<(u32, u32)>,
) -> Result<(), AllocError>
    requires loops { HasLoops net.now }
    requires state { state_at net.now number ≡ Some state.now }
    ensures { OnOk result ((guards : List ℕ) × AreGuardsOf net.now number state.now guards
        × (keys.new.items ≡ keys.old.items ++ map (λ l. let key : ℕ × ℕ = (number, l) in key) guards)) }
{
    let guards = guards_of(alloc, net, number, state)?;
    for guard in &guards {
        keys.push((number, *guard))?;
    }
    Ok(())
}

/// The place of the last of some keys whose guard is not above this condition.
pub(crate) fn last_within(keys: &[(u32, u32)], low: usize, high: usize, condition: u32) -> usize
    requires order { (low < high) × (high ≤ length keys.now) }
    requires first { guard_of keys.now low ≤ condition }
    ensures within { (low ≤ result) × (result < high) }
    ensures at { guard_of keys.now result ≤ condition }
    ensures next { result + 1 < high → condition < guard_of keys.now (result + 1) }
{
    let mut at = low;
    let mut end = high;
    while end - at > 1 {
        let middle = at + (end - at) / 2;
        if keys[middle].1 <= condition {
            at = middle;
        } else {
            end = middle;
        }
    }
    at
}

impl Starts {
    /// The starts of a network's decisions.
    ///
    /// # Errors
    /// No memory.
    pub(crate) fn of(alloc: Global, net: &ParserNetwork) -> Result<Starts, AllocError>
        requires few { length net.now.states ≤ MOST_STATES }
        requires loops { HasLoops net.now }
        ensures { IfOk result (λ starts. AreKeys net.now net.now.states starts.first.items starts.keys.items) }
    {
        let mut first = vec![in alloc; 0usize]?;
        let mut keys = Vec::new(alloc);
        for (number, state) in net.states.as_slice().iter().enumerate() {
            push_starts(alloc, net, number as u32, state, &mut keys)?;
            first.push(keys.len())?;
        }
        Ok(Starts { first, keys })
    }
}
