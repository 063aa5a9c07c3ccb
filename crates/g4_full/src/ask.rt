// What is asked of a set that is remembered.
ghost use Rattle.std.specs.Prelude.{◌≡◌, ◌↔◌, IfOk, IfSome, false};
ghost use Rattle.g4_configs.specs.Configs.{Holds};
ghost use Rattle.g4_frames.specs.Framed.{IsAtHole, IsFramed, Kept};
ghost use Rattle.g4_full.specs.Settled.{Shows};
ghost use Rattle.g4_net.specs.Configurations.{Config};

use crate::lowering::is_at_hole;
use crate::shown::{Shown, show};
use g4_configs::Configs;
use g4_net::ParserNetwork;
use std::alloc::{AllocError, Global};

/// What is asked of a set, and the set itself, if it is still there.
#[derive(Drop)]
pub(crate) struct Asked {
    pub at_hole: bool,
    pub shown: Shown,
    pub set: Option<Configs>,
}

/// What is asked of a set.
pub(crate) fn ask(alloc: Global, net: &ParserNetwork, mut set: Configs) -> Result<Asked, AllocError>
    requires framed { IsFramed net.now (Holds set) }
    ensures clear { IfOk result (λ a. a.at_hole ≡ false → (c : Config) → Holds set c → IsAtHole net.now c → ⊥) }
    ensures shown { IfOk result (λ a. Shows (Kept net.now (Holds set)) a.shown) }
    ensures same { IfOk result (λ a. IfSome a.set (λ s. (c : Config) → Holds s c ↔ Holds set c)) }
{
    let at_hole = is_at_hole(alloc, net, &set)?;
    if !at_hole {
        let shown = show(alloc, &set)?;
        return Ok(Asked {
            at_hole,
            shown,
            set: Some(set),
        });
    }
    set.keep(net);
    let shown = show(alloc, &set)?;
    Ok(Asked {
        at_hole,
        shown,
        set: None,
    })
}
