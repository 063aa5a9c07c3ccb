// Why a file has no tokens.
use g4_base::Place;
use std::alloc::{AllocError, AllocFailed};

/// Why a file has no tokens.
#[derive(Drop)]
pub enum LexFault {
    /// The bytes are not UTF-8: the longest front part that is UTF-8 has this many bytes.
    NotUtf8(usize),
    /// The place at which no rule matches one character or more, and the character there. There is none at the end of the file,
    /// where a token that `more` has begun does not go on.
    NoToken(Place, Option<char>),
    /// The place of a match whose `popMode` finds no mode pushed.
    EmptyModeStack(Place),
    /// The place of the token past the first 1,000,000.
    Tokens(Place),
    /// Memory ran out.
    NoMemory,
}

impl From<AllocError> for LexFault {
    ghost use Rattle.std.specs.Prelude.{◌≡◌};
    ghost use Rattle.g4_lexer.specs.declared.fault.LexFault.TheVariants.{NoMemory};

    ghost from_gives = { λ _ e. e ≡ NoMemory };

    fn from(_: AllocError) -> Self {
        LexFault::NoMemory
    }
}

impl<T: Drop> From<AllocFailed<T>> for LexFault {
    ghost use Rattle.std.specs.Prelude.{◌≡◌};
    ghost use Rattle.g4_lexer.specs.declared.fault.LexFault.TheVariants.{NoMemory};

    ghost from_gives = { λ _ e. e ≡ NoMemory };

    fn from(_: AllocFailed<T>) -> Self {
        LexFault::NoMemory
    }
}
