// Why a grammar is not fetched.
use g4_base::{Place, Sequence, Text};
use std::alloc::{AllocError, AllocFailed};

/// The fault of a file that is no grammar, or no file of tokens.
#[derive(Drop)]
pub enum FileFault {
    /// The longest front part that is UTF-8 has this many bytes.
    NotUtf8(usize),
    /// The place and the characters of the first syntax fault.
    Syntax(Place, Sequence<char>),
    /// The place of the first character set that is empty, has a range that runs backward or names an unknown property.
    BadSet(Place),
    /// A bracket of a rule opens while 256 are open.
    Nesting,
    /// The line with this number, counted from 1, is no token line, or gives a name or a literal a second number.
    BadTokensLine(u32),
    /// A number of a token is past 4,096.
    Types,
}

/// The first file at which fetching a grammar stops, and why.
#[derive(Drop)]
pub enum Stop {
    /// No file has this name.
    Absent(Text),
    /// The file of this name has this many bytes, which is past the limit.
    TooLarge(Text, u64),
    /// The file of this name has this fault.
    Unreadable(Text, FileFault),
}

/// Why there is no grammar.
#[derive(Drop)]
pub enum Halt {
    Stop(Stop),
    /// A fetch failed.
    Failed,
    NoMemory,
}

impl From<AllocError> for Halt {
    ghost use Rattle.std.specs.Prelude.{◌≡◌};
    ghost use Rattle.g4_fetch.specs.declared.stop.Halt.TheVariants.{NoMemory};

    ghost from_gives = { λ _ e. e ≡ NoMemory };

    fn from(_: AllocError) -> Self {
        Halt::NoMemory
    }
}

impl<T: Drop> From<AllocFailed<T>> for Halt {
    ghost use Rattle.std.specs.Prelude.{◌≡◌};
    ghost use Rattle.g4_fetch.specs.declared.stop.Halt.TheVariants.{NoMemory};

    ghost from_gives = { λ _ e. e ≡ NoMemory };

    fn from(_: AllocFailed<T>) -> Self {
        Halt::NoMemory
    }
}
