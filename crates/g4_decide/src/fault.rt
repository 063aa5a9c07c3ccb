// Why a decision has no alternative.
use std::alloc::AllocError;

/// Why a decision has no alternative.
#[derive(Drop)]
pub enum DecideFault {
    /// No alternative is viable at the token at this place of the token list.
    NoViable { at: u32 },
    NoMemory,
}

impl From<AllocError> for DecideFault {
    ghost use Rattle.std.specs.Prelude.{◌≡◌};
    ghost use Rattle.g4_decide.specs.declared.fault.DecideFault.TheVariants.{NoMemory};

    ghost from_gives = { λ _ e. e ≡ NoMemory };

    fn from(_: AllocError) -> Self {
        DecideFault::NoMemory
    }
}
