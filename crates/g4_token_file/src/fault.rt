// Why a file has no table of token numbers.
use std::alloc::AllocError;

/// Why a file has no table of token numbers.
#[derive(Drop)]
pub enum TokenFileFault {
    /// The line with this number, counted from 1, is no token line, or gives a name or a literal a second number.
    BadTokensLine(u32),
    /// A number is past 4,096.
    Types,
    NoMemory,
}

/// Why reading stops at a line.
#[derive(Drop)]
pub enum LineFault {
    /// It is no token line, or gives a second number.
    Bad,
    /// Its number is past the limit.
    Past,
    NoMemory,
}

impl LineFault {
    ghost use Rattle.std.specs.Prelude.{◌≡◌};
    ghost use Rattle.g4_token_file.specs.Answers.{fault_at};

    /// The fault of the file whose line with this number it is.
    pub fn at_line(self, number: u32) -> TokenFileFault
        ensures { result ≡ fault_at self number }
    {
        match self {
            LineFault::Bad => TokenFileFault::BadTokensLine(number),
            LineFault::Past => TokenFileFault::Types,
            LineFault::NoMemory => TokenFileFault::NoMemory,
        }
    }
}

impl From<AllocError> for LineFault {
    ghost use Rattle.std.specs.Prelude.{◌≡◌};
    ghost use Rattle.g4_token_file.specs.declared.fault.LineFault.TheVariants.{NoMemory};

    ghost from_gives = { λ _ e. e ≡ NoMemory };

    fn from(_: AllocError) -> Self {
        LineFault::NoMemory
    }
}
