// The lines of all tokens of a file.
ghost use Rattle.std.specs.List.{flat_map};
ghost use Rattle.std.specs.Prelude.{◌-◌, length, slice_get};
ghost use Rattle.g4_trees.specs.Appending.{Adds};
ghost use Rattle.g4_trees.specs.TokenLines.{end_line_by, token_line, token_lines};

use crate::line::{push_end_line, push_line};
use g4_base::Text;
use g4_tokens::{Token, Tokens};
use std::alloc::AllocError;

/// Adds the lines of tokens of a file of these bytes.
fn push_lines(
    out: &mut Vec<u8>,
    name: &str,
    shown: &[Text],
    bytes: &[u8],
    tokens: &[Token],
) -> Result<(), AllocError>
    ensures { Adds (flat_map (token_line shown.now name.now bytes.now) tokens.now) out.old.items out.new.items result }
{
    for token in tokens {
        push_line(out, name, shown, bytes, token)?;
    }
    Ok(())
}

/// Adds the line of the end of the file, at the place of the last token of the parser's list, and nothing where that is empty.
fn push_end(out: &mut Vec<u8>, name: &str, list: &[Token]) -> Result<(), AllocError>
    ensures { Adds (end_line_by name.now (slice_get list.now (length list.now - 1))) out.old.items out.new.items result }
{
    match list.last() {
        Some(token) => push_end_line(out, name, token.place),
        None => Ok(()),
    }
}

/// Adds the lines of the tokens of a file of this name: a line `NAME: L:C SHOWN 'TEXT'` for each token of all channels in order,
/// with ` channel N` after it where N is not 0, and then `NAME: L:C EOF '<EOF>'` for the end of the file. L and C are the token's
/// line, from 1, and column, from 0 in characters. SHOWN is what `shown` has for its token type, of which it has one for each
/// type from 1 on, and TEXT its text, with newline, tab and return as `\n`, `\t` and `\r`.
///
/// # Errors
/// No memory. A front part may be added then.
#[tactic(auto, using(crate::proofs::Appended::adds_last, crate::proofs::Appended::stops_in_first))]
pub fn push_token_lines(
    out: &mut Vec<u8>,
    name: &str,
    shown: &[Text],
    tokens: &Tokens,
) -> Result<(), AllocError>
    ensures { Adds (token_lines shown.now name.now tokens.now) out.old.items out.new.items result }
{
    let bytes = tokens.bytes.as_slice();
    push_lines(out, name, shown, bytes, tokens.all.as_slice())?;
    push_end(out, name, tokens.list.as_slice())
}
