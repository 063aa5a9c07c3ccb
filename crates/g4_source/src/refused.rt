// Why a stage gives nothing: a fault of what it was given, or want of memory.
ghost use Rattle.std.specs.Prelude.{◌≡◌};
ghost use Rattle.g4_source.specs.Refusals.{passed};

use std::alloc::AllocError;

/// Why a stage gives nothing.
#[derive(Drop)]
pub enum Refused<F> {
    /// This fault of what it was given.
    Fault(F),
    NoMemory,
}

impl<F> From<AllocError> for Refused<F> {
    ghost use Rattle.std.specs.Prelude.{◌≡◌};
    ghost use Rattle.g4_source.specs.declared.refused.Refused.TheVariants.{NoMemory};

    ghost from_gives = { λ _ e. e ≡ NoMemory };

    fn from(_: AllocError) -> Self {
        Refused::NoMemory
    }
}

/// Faults that take in those of a stage before.
pub trait TakesIn<F> {
    /// The fault that one of the stage before is.
    ghost fault_of: { F → Self };

    /// The fault as one of these.
    fn fault_of(fault: F) -> Self
        ensures { result ≡ fault_of fault };
}

/// The answer of a stage before, its faults taken in.
pub fn passed<T, F, G: TakesIn<F>>(answer: Result<T, Refused<F>>) -> Result<T, Refused<G>>
    ensures { result ≡ passed G.fault_of answer }
{
    match answer {
        Ok(value) => Ok(value),
        Err(Refused::Fault(fault)) => Err(Refused::Fault(G::fault_of(fault))),
        Err(Refused::NoMemory) => Err(Refused::NoMemory),
    }
}
