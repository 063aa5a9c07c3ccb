// The text of a token, read in place.
ghost use Rattle.std.specs.Prelude.{◌≡◌};
ghost use Rattle.std.specs.Str.{bytes_eq};
ghost use Rattle.g4_patterns.specs.Matching.{text_in};

use g4_tokens::Token;

/// Whether the token has this text in a file of these bytes. Those that close the file have `<EOF>`.
pub(crate) fn has_text(bytes: &[u8], token: &Token, text: &[u8]) -> bool
    ensures { result ≡ bytes_eq (text_in bytes.now token.now) text.now }
{
    let start = token.start as usize;
    if bytes.len() <= start {
        return b"<EOF>".as_slice() == text;
    }
    let end = (token.end as usize).clamp(start, bytes.len());
    &bytes[start..end] == text
}
