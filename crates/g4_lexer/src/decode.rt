// The characters of a file.
ghost use Rattle.std.specs.Prelude.{◌≤◌, IfOk, length};
ghost use Rattle.g4_lexer.specs.Decoding.{IsDecoding};

use std::alloc::{AllocError, Global};
use std::str;

/// Why bytes are no characters.
#[derive(Drop)]
pub enum DecodeError {
    /// The longest front part that is UTF-8 has this many bytes.
    NotUtf8(usize),
    NoMemory,
}

impl From<AllocError> for DecodeError {
    ghost use Rattle.std.specs.Prelude.{◌≡◌};
    ghost use Rattle.g4_lexer.specs.declared.decode.DecodeError.TheVariants.{NoMemory};

    ghost from_gives = { λ _ e. e ≡ NoMemory };

    fn from(_: AllocError) -> Self {
        DecodeError::NoMemory
    }
}

/// The characters that the bytes are in UTF-8.
pub fn characters(alloc: Global, bytes: &[u8]) -> Result<Vec<char>, DecodeError>
    ensures decoding { IsDecoding (λ v. v.items) bytes.now result }
    ensures few { IfOk result (λ v. length v.items ≤ length bytes.now) }
{
    match str::from_utf8(bytes) {
        Ok(text) => {
            let found = text.chars().collect(alloc)?;
            Ok(found)
        }
        Err(e) => Err(DecodeError::NotUtf8(e.valid_up_to())),
    }
}
