// The reading of the text of a set.
ghost use Rattle.g4_chars.specs.SetText.{IsReading};

use crate::char_set::CharSet;
use crate::item::read_items;
use crate::part::{are_sound, parts, set_of};
use std::alloc::{AllocError, Global};

/// Why the text of a set is refused.
#[derive(Clone, Copy, Debug, PartialEq, Eq)]
pub enum SetFault {
    /// The text has a bad escape.
    BadEscape,
    /// The set has no character, a range runs backward, or no property has a name that is used.
    BadSet,
    /// Memory did not suffice.
    NoMemory,
}

impl From<AllocError> for SetFault {
    ghost use Rattle.std.specs.Prelude.{◌≡◌};
    ghost use Rattle.g4_chars.specs.declared.set_text.SetFault.TheVariants.{NoMemory};

    ghost from_gives = { λ _ e. e ≡ NoMemory };

    fn from(_: AllocError) -> Self {
        SetFault::NoMemory
    }
}

/// The set that the text between two brackets spells.
///
/// # Errors
/// A bad escape; else a set without a character, a range that runs backward or a name that no property has; no memory.
pub fn read_set(alloc: Global, text: &[char]) -> Result<CharSet, SetFault>
    ensures { IsReading text.now result }
{
    let Some(items) = read_items(alloc, text)? else {
        return Err(SetFault::BadEscape);
    };
    let parts = parts(alloc, &items)?;
    if !are_sound(&parts) {
        return Err(SetFault::BadSet);
    }
    let set = set_of(alloc, &parts)?;
    if set.is_empty() {
        return Err(SetFault::BadSet);
    }
    Ok(set)
}
