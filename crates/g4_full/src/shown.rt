// What a set of configurations shows of a decision.
ghost use Rattle.std.specs.Prelude.{◌≡◌, IfOk};
ghost use Rattle.g4_configs.specs.Configs.{Holds};
ghost use Rattle.g4_full.specs.Ahead.{ahead_by};
ghost use Rattle.g4_full.specs.Settled.{Shows};

use crate::full::{Ahead, Settled};
use g4_configs::Configs;
use std::alloc::{AllocError, Global};

/// What a set of configurations shows.
#[derive(Clone, Copy)]
pub(crate) enum Shown {
    /// Nothing is left.
    Nothing,
    /// This alternative is chosen.
    Chosen(u32),
    /// Neither: another symbol is looked at. This is the least alternative that is left.
    Open(u32),
}

/// What the set shows.
pub(crate) fn show(alloc: Global, set: &Configs) -> Result<Shown, AllocError>
    ensures { IfOk result (Shows (Holds set.now)) }
{
    let Some(least) = set.least_alternative() else {
        return Ok(Shown::Nothing);
    };
    if let Some(alternative) = set.single_alternative() {
        return Ok(Shown::Chosen(alternative));
    }
    if set.alike(alloc)? {
        return Ok(Shown::Chosen(least));
    }
    Ok(Shown::Open(least))
}

/// What looking ahead comes to where this is shown by the set after symbol k, if it ends there: it does at the last symbol at the latest.
pub(crate) fn come_to(shown: Shown, k: u32, last: bool) -> Option<Ahead>
    ensures { result ≡ ahead_by k last shown }
{
    match shown {
        Shown::Nothing => Some(Ahead::Settled(Settled::NoViable(k))),
        Shown::Chosen(alternative) => Some(Ahead::Settled(Settled::Chosen(alternative))),
        Shown::Open(least) => { if last { Some(Ahead::Open(least)) } else { None } }
    }
}
