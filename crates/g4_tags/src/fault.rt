// Why a text is no pattern's.
use std::alloc::{AllocError, AllocFailed};

/// Why a text has no pieces.
#[derive(Drop)]
pub enum TagFault {
    /// The byte, counted from 0, of the first `<` with which no tag begins: one that does not close, is of another form, or names nothing.
    Syntax(usize),
    NoMemory,
}

impl From<AllocError> for TagFault {
    ghost use Rattle.std.specs.Prelude.{◌≡◌};
    ghost use Rattle.g4_tags.specs.declared.fault.TagFault.TheVariants.{NoMemory};

    ghost from_gives = { λ _ e. e ≡ NoMemory };

    fn from(_: AllocError) -> Self {
        TagFault::NoMemory
    }
}

impl<T: Drop> From<AllocFailed<T>> for TagFault {
    ghost use Rattle.std.specs.Prelude.{◌≡◌};
    ghost use Rattle.g4_tags.specs.declared.fault.TagFault.TheVariants.{NoMemory};

    ghost from_gives = { λ _ e. e ≡ NoMemory };

    fn from(_: AllocFailed<T>) -> Self {
        TagFault::NoMemory
    }
}
