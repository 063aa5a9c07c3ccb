// The number of a channel as it is written in digits.
ghost use Rattle.std.specs.Prelude.{◌≡◌};
ghost use Rattle.g4_lexer_rules.specs.Commands.{number_of};

/// The number that the text is in decimal digits, however many, if it has 32 bits.
pub fn number_of(text: &str) -> Option<u32>
    ensures { result ≡ number_of text.now }
{
    let mut number: u32 = 0;
    for byte in text.as_bytes() {
        if !byte.is_ascii_digit() {
            return None;
        }
        number = number
            .checked_mul(10)?
            .checked_add(u32::from(*byte - b'0'))?;
    }
    Some(number)
}
