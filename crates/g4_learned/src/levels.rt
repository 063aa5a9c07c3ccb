// The levels at which what may be taken at a decision changes.
ghost use Rattle.std.specs.Prelude.{◌≡◌, ◌++◌, IfOk, OnOk};
ghost use Rattle.g4_learned.specs.Levels.{AreLevels, next_level};
ghost use Rattle.g4_net.specs.Network.{state_at};

use g4_net::{ParserNetwork, State};
use std::alloc::{AllocError, Global};

/// Puts at the end the first level at which the state may not be passed any more.
fn push_level(levels: &mut Vec<u32>, net: &ParserNetwork, state: u32) -> Result<(), AllocError>
    ensures { OnOk result (levels.new.items ≡ levels.old.items ++ next_level (state_at net.now state)) }
{
    match net.states.as_slice().get(state as usize) {
        Some(State::Level(most, _)) => {
            if *most < u32::MAX {
                levels.push(*most + 1)?;
            }
            Ok(())
        }
        _ => Ok(()),
    }
}

/// The levels at which what may be taken of these first states changes, least first, and before them 0.
pub(crate) fn levels_at(
    alloc: Global,
    net: &ParserNetwork,
    targets: &[u32],
) -> Result<Vec<u32>, AllocError>
    ensures { IfOk result (λ levels. AreLevels net.now targets.now levels.items) }
{
    let mut levels = vec![in alloc; 0u32]?;
    for target in targets {
        push_level(&mut levels, net, *target)?;
    }
    levels.sort_unstable();
    levels.dedup();
    Ok(levels)
}
