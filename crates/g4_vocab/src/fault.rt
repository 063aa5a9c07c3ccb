// Why a grammar is not numbered.
use std::alloc::AllocError;

/// The most rules of a grammar.
pub const MOST_RULES: usize = 4_096;

/// Why a grammar is not numbered.
#[derive(Drop)]
pub enum NumberFault {
    /// More than 4,096 rules.
    Rules,
    /// More than 4,096 token types.
    Types,
    NoMemory,
}

impl From<AllocError> for NumberFault {
    ghost use Rattle.std.specs.Prelude.{◌≡◌};
    ghost use Rattle.g4_vocab.specs.declared.fault.NumberFault.TheVariants.{NoMemory};

    ghost from_gives = { λ _ e. e ≡ NoMemory };

    fn from(_: AllocError) -> Self {
        NumberFault::NoMemory
    }
}
