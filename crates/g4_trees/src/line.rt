// The line of a token, and that of the end of a file.
ghost use Rattle.std.specs.Prelude.{◌≡◌, ◌++◌, codes};
ghost use Rattle.g4_trees.specs.Appending.{Adds};
ghost use Rattle.g4_trees.specs.TokenLines.{channel_text, end_line, place_text, symbol_text, token_line};

use crate::push_token_text;
use crate::texts::push_all;
use g4_base::{Place, Text};
use g4_tokens::{END, EOF, Token};
use itoa::Buffer;
use std::alloc::AllocError;

/// What is shown of a symbol: `EOF` for EOF and END, else what is shown of the token type, empty where there is none.
fn symbol_shown(shown: &[Text], symbol: u32) -> &str
    ensures { result.now ≡ symbol_text shown.now symbol }
{
    if symbol == EOF || symbol == END {
        return "EOF";
    }
    match shown.get((symbol as usize).saturating_sub(1)) {
        Some(text) => text.as_str(),
        None => "",
    }
}

/// Adds the beginning of a line: `NAME: L:C SHOWN '`.
fn push_start(out: &mut Vec<u8>, name: &str, place: Place, shown: &str) -> Result<(), AllocError>
    ensures { Adds (name.now ++ (codes ": " ++ (place_text place ++ (codes " " ++ (shown.now ++ codes " '"))))) out.old.items
        out.new.items result }
{
    let mut line = Buffer::new();
    let mut column = Buffer::new();
    let line = line.format(place.line);
    let column = column.format(place.column);
    push_all(out, &[name, ": ", line, ":", column, " ", shown, " '"])
}

/// Adds the end of the line of a token of this channel: the quote after its text, ` channel N` where N is not 0, and a newline.
fn push_channel(out: &mut Vec<u8>, channel: u32) -> Result<(), AllocError>
    ensures { Adds (codes "'" ++ (channel_text channel ++ codes "\n")) out.old.items out.new.items result }
{
    let mut digits = Buffer::new();
    if channel == 0 {
        push_all(out, &["'\n"])
    } else {
        push_all(out, &["' channel ", digits.format(channel), "\n"])
    }
}

/// Adds the line of a token of a file of these bytes: `NAME: L:C SHOWN 'TEXT'`, then ` channel N` where N is not 0, and a
/// newline.
pub(crate) fn push_line(
    out: &mut Vec<u8>,
    name: &str,
    shown: &[Text],
    bytes: &[u8],
    token: &Token,
) -> Result<(), AllocError>
    ensures { Adds (token_line shown.now name.now bytes.now token.now) out.old.items out.new.items result }
{
    push_start(out, name, token.place, symbol_shown(shown, token.symbol))?;
    push_token_text(out, bytes, token)?;
    push_channel(out, token.channel)
}

/// Adds the line of the end of the file, which is at this place: `NAME: L:C EOF '<EOF>'` and a newline.
pub(crate) fn push_end_line(out: &mut Vec<u8>, name: &str, place: Place) -> Result<(), AllocError>
    ensures { Adds (end_line name.now place) out.old.items out.new.items result }
{
    push_start(out, name, place, "EOF")?;
    push_all(out, &["<EOF>'\n"])
}
