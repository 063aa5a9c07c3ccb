// The grammar that a text is.
ghost use Rattle.std.specs.Prelude.{◌≤◌, IfOk, length};
ghost use Rattle.g4_source.specs.Blocks.{HaveAlternatives};
ghost use Rattle.g4_reader.specs.Answering.{IsReadingOf};
ghost use Rattle.g4_cursor.specs.Parts.{AreParts};
ghost use Rattle.g4_reader.specs.Reading.{IsReading};
ghost use Rattle.g4_cursor.specs.Texts.{spelled};
ghost use Rattle.g4_base.specs.declared.limits.TheConstants.{MOST_BYTES};

use crate::fault::{fault_at, opened_fault};
use g4_base::{Place, Sequence};
use g4_grammar_tokens::{ScanFault, Token, scan};
use g4_productions::{Stop, read_tokens};
use g4_source::Source;
use std::alloc::Global;
use std::str;

/// Why a text is no grammar.
#[derive(Drop)]
pub enum ReadFault {
    /// The longest front part that is UTF-8 has this many bytes.
    NotUtf8(usize),
    /// The place and the characters of the first token with which no grammar text begins, `<EOF>` at the end of the
    /// text; or of the character that opens what doesn't close or holds a bad escape.
    Syntax(Place, Sequence<char>),
    /// The place of the first character set that is empty, has a range that runs backward or names an unknown property, or of
    /// the first literal of such a range, or of a literal under `~` in a lexer rule that is not one character.
    BadSet(Place),
    /// A bracket of a rule opens while 256 are open.
    Nesting,
    NoMemory,
}

/// The grammar that the tokens are, or the first of their bad sets, brackets that open too deep and syntax faults.
fn read_checked(alloc: Global, text: &str, tokens: &[Token]) -> Result<Source, ReadFault>
    requires parts { AreParts text.now tokens.now }
    requires fits { length text.now ≤ MOST_BYTES }
    ensures reading { IsReadingOf text.now (spelled text.now tokens.now) result }
    ensures full { IfOk result HaveAlternatives }
{
    match read_tokens(alloc, text, tokens) {
        Ok(source) => Ok(source),
        Err(Stop::At(at)) => Err(fault_at(alloc, text, tokens, at)),
        Err(Stop::BadSet(place)) => Err(ReadFault::BadSet(place)),
        Err(Stop::Nesting) => Err(ReadFault::Nesting),
        Err(Stop::NoMemory) => Err(ReadFault::NoMemory),
    }
}

/// The grammar that the text is, by its tokens, or their fault.
fn read_text(alloc: Global, text: &str) -> Result<Source, ReadFault>
    requires fits { length text.now ≤ MOST_BYTES }
    ensures reading { IsReading text.now result }
    ensures full { IfOk result HaveAlternatives }
{
    match scan(alloc, text.as_bytes()) {
        Ok(tokens) => read_checked(alloc, text, tokens.as_slice()),
        Err(ScanFault::NotUtf8(at)) => Err(ReadFault::NotUtf8(at)),
        Err(ScanFault::Syntax(place, index)) => {
            Err(opened_fault(alloc, place, text.as_bytes(), index))
        }
        Err(ScanFault::NoMemory) => Err(ReadFault::NoMemory),
    }
}

/// The grammar that the bytes are, or the first fault of the text's tokens, or else what comes first: a syntax fault, a bad set,
/// or a bracket that opens too deep.
///
/// # Errors
/// - `NotUtf8`: the bytes are no text.
/// - `Syntax`: a literal, set, arguments, action or comment doesn't close, or a literal or set holds a bad escape; or the
///   first token with which no grammar text begins comes before all bad sets and all brackets that open too deep.
/// - `BadSet`: the first set that is empty, has a range that runs backward or names an unknown property comes before; or a
///   range between literals that runs backward, or a literal in one or under `~` in a lexer rule that is not one character.
/// - `Nesting`: the first `(` that opens while 256 are open comes before.
/// - `NoMemory`: memory runs out.
pub fn read_grammar(alloc: Global, bytes: &[u8]) -> Result<Source, ReadFault>
    requires fits { length bytes.now ≤ MOST_BYTES }
    ensures reading { IsReading bytes.now result }
    ensures full { IfOk result HaveAlternatives }
{
    match str::from_utf8(bytes) {
        Ok(text) => read_text(alloc, text),
        Err(fault) => Err(ReadFault::NotUtf8(fault.valid_up_to())),
    }
}
