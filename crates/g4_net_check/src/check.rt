// Whether a network is well formed.
ghost use Rattle.std.specs.Prelude.{◌<◌, ◌^◌, ◌↔◌, All, IfOk, IsTrue, length};
ghost use Rattle.g4_net.specs.Leads.{WellFormed};
ghost use Rattle.g4_net_check.specs.Steps.{NeverAgain, StartsFit};

use crate::callers::callers_fit;
use crate::nullable::nullable;
use crate::numbers::numbers_fit;
use crate::steps::steps;
use g4_cycles::first_cycle;
use g4_net::Network;
use std::alloc::{AllocError, Global};

/// Whether no state leads above its own stack to itself before a symbol is read.
fn never_again<L>(alloc: Global, net: &Network<L>) -> Result<bool, AllocError>
    requires few { length net.now.states < 2 ^ 32 }
    requires starts { All StartsFit net.now.states }
    ensures { IfOk result (λ answer. IsTrue answer ↔ NeverAgain net.now) }
{
    let nullable = nullable(alloc, net)?;
    let graph = steps(alloc, nullable.as_slice(), net)?;
    let cycle = first_cycle(alloc, graph.as_slice())?;
    Ok(cycle.is_none())
}

/// Whether the network is well formed: its numbers are those of its states and rules, each decision has two alternatives or
/// more, the callers listed are the return states of the calls, and no state leads above its own stack to itself before a
/// symbol is read.
///
/// # Errors
/// No memory, also where there are more states than numbers of 32 bits.
pub fn check_net<L>(alloc: Global, net: &Network<L>) -> Result<bool, AllocError>
    ensures { IfOk result (λ answer. IsTrue answer ↔ WellFormed net.now) }
{
    if net.states.len() > u32::MAX as usize {
        return Err(AllocError);
    }
    if !numbers_fit(net) {
        return Ok(false);
    }
    if !callers_fit(alloc, net)? {
        return Ok(false);
    }
    let answer = never_again(alloc, net)?;
    Ok(answer)
}
