// What the alternatives of each decision begin with.
ghost use Rattle.std.specs.Prelude.{◌≤◌, IfOk, length};
ghost use Rattle.g4_learned.specs.Tables.{HaveAllTests};
ghost use Rattle.g4_net.specs.Loops.{HasLoops};
ghost use Rattle.g4_net.specs.declared.network.TheConstants.{MOST_STATES};

use g4_guards::{Tests, tests_of};
use g4_net::ParserNetwork;
use std::alloc::{AllocError, Global};

/// For each state what its alternatives begin with.
///
/// # Errors
/// No memory.
pub(crate) fn all_tests(alloc: Global, net: &ParserNetwork) -> Result<Vec<Tests>, AllocError>
    requires few { length net.now.states ≤ MOST_STATES }
    requires loops { HasLoops net.now }
    ensures { IfOk result (λ tests. HaveAllTests net.now tests.items) }
{
    let mut tests = Vec::new(alloc);
    for number in 0..net.states.as_slice().len() {
        tests.push(tests_of(net, number as u32))?;
    }
    Ok(tests)
}
