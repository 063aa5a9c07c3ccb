// The faults of what parsing calls, as its own.
use crate::parser::ParseFault;
use g4_decide::DecideFault;
use std::alloc::{AllocError, AllocFailed};

impl From<AllocError> for ParseFault {
    ghost use Rattle.std.specs.Prelude.{◌≡◌};
    ghost use Rattle.g4_parse.specs.declared.parser.ParseFault.TheVariants.{NoMemory};

    ghost from_gives = { λ _ e. e ≡ NoMemory };

    fn from(_: AllocError) -> Self {
        ParseFault::NoMemory
    }
}

impl<T: Drop> From<AllocFailed<T>> for ParseFault {
    ghost use Rattle.std.specs.Prelude.{◌≡◌};
    ghost use Rattle.g4_parse.specs.declared.parser.ParseFault.TheVariants.{NoMemory};

    ghost from_gives = { λ _ e. e ≡ NoMemory };

    fn from(_: AllocFailed<T>) -> Self {
        ParseFault::NoMemory
    }
}

impl From<DecideFault> for ParseFault {
    ghost use Rattle.std.specs.Prelude.{◌≡◌};
    ghost use Rattle.g4_parse.specs.Deciding.{of_decide};

    ghost from_gives = { λ d e. e ≡ of_decide d };

    fn from(fault: DecideFault) -> Self {
        match fault {
            DecideFault::NoViable { at } => ParseFault::NoViable { at },
            DecideFault::NoMemory => ParseFault::NoMemory,
        }
    }
}
