// A whole grammar text.
ghost use Rattle.std.specs.Prelude.{IfOk};
ghost use Rattle.g4_source.specs.Blocks.{HaveAlternatives};
ghost use Rattle.g4_cursor.specs.Parts.{AreParts};
ghost use Rattle.g4_productions.specs.Answering.{ReadsAll, StopsWithin};
ghost use Rattle.g4_productions.specs.Grammars.{ReadsText};

use crate::grammar::grammar;
use crate::nesting::first_too_deep;
use g4_base::Place;
use g4_cursor::{Cursor, Halt};
use g4_grammar_tokens::Token;
use g4_source::Source;
use std::alloc::{AllocError, Global};

/// Why no grammar is read.
#[derive(Drop)]
pub enum Stop {
    /// The index of the first token with which no grammar text begins; the number of tokens where the text ends too early.
    At(usize),
    /// The place of the first token that begins a bad character set.
    BadSet(Place),
    /// A bracket opens while `MOST_OPEN` are open.
    Nesting,
    NoMemory,
}

impl From<AllocError> for Stop {
    ghost use Rattle.std.specs.Prelude.{◌≡◌};
    ghost use Rattle.g4_productions.specs.declared.reader.Stop.TheVariants.{NoMemory};

    ghost from_gives = { λ _ e. e ≡ NoMemory };

    fn from(_: AllocError) -> Self {
        Stop::NoMemory
    }
}

/// The grammar that the tokens of the text are, or the token before which reading stops, however deep its brackets are nested.
fn read_all(alloc: Global, text: &str, tokens: &[Token]) -> Result<Source, Stop>
    requires parts { AreParts text.now tokens.now }
    ensures reads { ReadsAll text.now tokens.now result }
    ensures full { IfOk result HaveAlternatives }
{
    let mut cursor = Cursor::new(alloc, text, tokens);
    let source = grammar(&mut cursor)?;
    let at = tokens.len() - cursor.left();
    match cursor.halt() {
        Some(Halt::BadSet) => Err(Stop::BadSet(cursor.place())),
        Some(Halt::Fault) => Err(Stop::At(at)),
        None => {
            if at < tokens.len() {
                Err(Stop::At(at))
            } else {
                Ok(source)
            }
        }
    }
}

/// Why reading does not go on after these tokens, of which the last is the first bracket that opens too deep.
fn stop_within(alloc: Global, text: &str, tokens: &[Token]) -> Stop
    requires parts { AreParts text.now tokens.now }
    ensures { StopsWithin text.now tokens.now result }
{
    match read_all(alloc, text, tokens) {
        Ok(_) => Stop::Nesting,
        Err(Stop::At(at)) => {
            if at < tokens.len() {
                Stop::At(at)
            } else {
                Stop::Nesting
            }
        }
        Err(Stop::BadSet(place)) => Stop::BadSet(place),
        Err(Stop::Nesting) => Stop::Nesting,
        Err(Stop::NoMemory) => Stop::NoMemory,
    }
}

/// The grammar that the tokens of the text are, or the first token before which reading stops.
///
/// # Errors
/// - `At`: the index of the first token with which no grammar text begins, or how many tokens there are where more would have
///   to follow; no token before it begins a bad character set or opens a bracket too deep.
/// - `BadSet`: the place of the first token that begins a bad character set; some grammar text begins with the tokens before it,
///   of which none opens a bracket too deep.
/// - `Nesting`: a bracket opens while `MOST_OPEN` are open; some grammar text begins with the tokens up to it, and no token before
///   it begins a bad character set.
/// - `NoMemory`: memory runs out.
pub fn read_tokens(alloc: Global, text: &str, tokens: &[Token]) -> Result<Source, Stop>
    requires parts { AreParts text.now tokens.now }
    ensures reads { ReadsText text.now tokens.now result }
    ensures full { IfOk result HaveAlternatives }
{
    match first_too_deep(tokens) {
        None => read_all(alloc, text, tokens),
        Some(at) => Err(stop_within(alloc, text, &tokens[..=at])),
    }
}
