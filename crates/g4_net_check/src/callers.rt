// Whether the callers listed of each rule are the return states of its calls.
ghost use Rattle.std.specs.Prelude.{◌≡◌, ◌↔◌, ℕ, [], IfOk, IsTrue, length};
ghost use Rattle.g4_cycles.specs.Edges.{EdgeOf, successors_of};
ghost use Rattle.g4_net_check.specs.Callers.{CallersFit, HasReturn, CallsFit};

use crate::members::same_members;
use g4_net::{Network, State};
use std::alloc::{AllocError, Global};

/// `count` empty lists.
fn empty_lists(alloc: Global, count: usize) -> Result<Vec<Vec<u32>>, AllocError>
    ensures size { IfOk result (λ lists. length lists.items ≡ count) }
    ensures none { IfOk result (λ lists. (k : ℕ) → successors_of lists.items k ≡ []) }
{
    let mut lists = Vec::with_capacity(alloc, count)?;
    'rules: for _ in 0..count {
        lists.push(Vec::new(alloc))?;
    }
    Ok(lists)
}

/// For each of this many rules the return states of its calls.
fn return_states<L>(
    alloc: Global,
    rules: usize,
    states: &[State<L>],
) -> Result<Vec<Vec<u32>>, AllocError>
    requires { CallsFit rules states.now }
    ensures size { IfOk result (λ lists. length lists.items ≡ rules) }
    ensures returns { IfOk result (λ lists. (rule t : ℕ) → EdgeOf lists.items rule t ↔ HasReturn states.now rule t) }
{
    let mut lists = empty_lists(alloc, rules)?;
    for state in states {
        if let State::Call { rule, back, .. } = state {
            lists[*rule as usize].push(*back)?;
        }
    }
    Ok(lists)
}

/// Whether the callers listed of each rule are the return states of its calls.
pub fn callers_fit<L>(alloc: Global, net: &Network<L>) -> Result<bool, AllocError>
    requires { CallsFit (length net.now.callers) net.now.states }
    ensures { IfOk result (λ answer. IsTrue answer ↔ CallersFit net.now) }
{
    let callers = net.callers.as_slice();
    let returns = return_states(alloc, callers.len(), net.states.as_slice())?;
    for (rule, listed) in callers.iter().enumerate() {
        if !same_members(alloc, listed.as_slice(), returns[rule].as_slice())? {
            return Ok(false);
        }
    }
    Ok(true)
}
