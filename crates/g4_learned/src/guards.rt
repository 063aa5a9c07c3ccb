// The guards of the decisions, each of which has a start.
ghost use Rattle.std.specs.Prelude.{◌≡◌, ◌≤◌, ◌^◌, IfOk, Some, length};
ghost use Rattle.g4_guards.specs.Tests.{tests_among};
ghost use Rattle.g4_guards.specs.declared.tests.TheConstants.{MOST_TESTED};
ghost use Rattle.g4_learned.specs.Guards.{AreBelow, AreGuards, AreGuardsOf};
ghost use Rattle.g4_net.specs.Loops.{HasLoops};
ghost use Rattle.g4_net.specs.Network.{state_at};
ghost use Rattle.g4_net.specs.declared.network.State.TheVariants.{Decision};

use crate::levels::levels_at;
use g4_guards::{Tests, count_tests, tests_of};
use g4_net::{ParserNetwork, State};
use g4_tokens::Symbols;
use std::alloc::{AllocError, Global};

/// The most alternatives of a decision: the code of each is a `u32`.
pub const MOST_ALTERNATIVES: usize = 4_294_967_293;

/// The numbers with no more binary digits than this, least first.
fn with_digits(alloc: Global, digits: usize) -> Result<Vec<u32>, AllocError>
    requires { digits ≤ MOST_TESTED }
    ensures { IfOk result (λ numbers. AreBelow (2 ^ digits) numbers.items) }
{
    let end = 1u32 << digits;
    let mut numbers = Vec::new(alloc);
    for number in 0..end {
        numbers.push(number)?;
    }
    Ok(numbers)
}

/// The guards of a decision with these first states, least first. Where it has many tests, there are none.
fn guards_at(
    alloc: Global,
    net: &ParserNetwork,
    decision: u32,
    targets: &[u32],
) -> Result<Vec<u32>, AllocError>
    requires loops { HasLoops net.now }
    requires at { state_at net.now decision ≡ Some (Decision targets.now) }
    ensures { IfOk result (λ guards. AreGuards net.now decision targets.now guards.items) }
{
    match tests_of(net, decision) {
        Tests::Levels => {
            let guards = levels_at(alloc, net, targets)?;
            Ok(guards)
        }
        Tests::Few => {
            let guards = with_digits(alloc, count_tests(net, targets))?;
            Ok(guards)
        }
        Tests::Many => Ok(Vec::new(alloc)),
    }
}

/// The guards of a state: there are none where it is no decision. There is no memory for a decision with more alternatives than the
/// store can name.
pub(crate) fn guards_of(
    alloc: Global,
    net: &ParserNetwork,
    number: u32,
    state: &State<Symbols>,
) -> Result<Vec<u32>, AllocError>
    requires loops { HasLoops net.now }
    requires state { state_at net.now number ≡ Some state.now }
    ensures { IfOk result (λ guards. AreGuardsOf net.now number state.now guards.items) }
{
    match state {
        State::Decision(targets) => {
            if targets.len() > MOST_ALTERNATIVES {
                return Err(AllocError);
            }
            let guards = guards_at(alloc, net, number, targets.as_slice())?;
            Ok(guards)
        }
        _ => Ok(Vec::new(alloc)),
    }
}
