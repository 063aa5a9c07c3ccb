// The tokens of a grammar text.
ghost use Rattle.std.specs.Prelude.{◌≡◌, ◌<◌, ◌≤◌, ◌+◌, length, IfOk};
ghost use Rattle.std.specs.Str.{chars};
ghost use Rattle.g4_grammar_tokens.specs.Scanning.{start_at};
ghost use Rattle.g4_grammar_tokens.specs.Spans.{AreInOrder, AreTexts};
ghost use Rattle.g4_grammar_tokens.specs.Answers.{AnswersRest, IsScan, start_of, unmarked};
ghost use Rattle.g4_base.specs.declared.limits.TheConstants.{MOST_BYTES};

use crate::Token;
use crate::character::begins;
use crate::piece::{Piece, read_piece};
use crate::position::Position;
use crate::statement::Statement;
use g4_base::{Place, Sequence};
use std::alloc::{AllocError, AllocFailed, Global};
use std::str;

/// Why bytes have no tokens.
#[derive(Drop)]
pub enum ScanFault {
    /// The longest front part that is UTF-8 has this many bytes.
    NotUtf8(usize),
    /// The place and the byte's index of the character that opens what doesn't close, or what holds a bad escape.
    Syntax(Place, usize),
    NoMemory,
}

impl From<AllocError> for ScanFault {
    ghost use Rattle.std.specs.Prelude.{◌≡◌};
    ghost use Rattle.g4_grammar_tokens.specs.declared.scanner.ScanFault.TheVariants.{NoMemory};

    ghost from_gives = { λ _ e. e ≡ NoMemory };

    fn from(_: AllocError) -> Self {
        ScanFault::NoMemory
    }
}

impl<T: Drop> From<AllocFailed<T>> for ScanFault {
    ghost use Rattle.std.specs.Prelude.{◌≡◌};
    ghost use Rattle.g4_grammar_tokens.specs.declared.scanner.ScanFault.TheVariants.{NoMemory};

    ghost from_gives = { λ _ e. e ≡ NoMemory };

    fn from(_: AllocFailed<T>) -> Self {
        ScanFault::NoMemory
    }
}

/// The tokens of a text that begins at the index.
fn scan_from(alloc: Global, text: &[char], index: usize) -> Result<Sequence<Token>, ScanFault>
    requires fits { length text.now ≤ MOST_BYTES }
    requires marked { index ≤ 3 }
    ensures { AnswersRest (start_at index) text.now result }
{
    let mut tokens = Vec::new(alloc);
    let mut statement = Statement::unread();
    let mut position = Position {
        place: Place::START,
        index,
    };
    let mut at = 0;
    while at < text.len() {
        match read_piece(statement, text[at], &text[at + 1..]) {
            Piece::Gap(more) => {
                let end = at + 1 + more;
                position = position.past(&text[at..end]);
                at = end;
            }
            Piece::Formed(kind, more) => {
                let end = at + 1 + more;
                let word = &text[at..end];
                let next = position.past(word);
                statement = statement.past(kind, word);
                tokens.push(Token {
                    kind,
                    place: position.place,
                    start: position.index,
                    end: next.index,
                })?;
                position = next;
                at = end;
            }
            Piece::Faulty => return Err(ScanFault::Syntax(position.place, position.index)),
        }
    }
    Ok(Sequence::new(tokens))
}

/// The tokens of a text, which may begin with a byte order mark.
fn scan_characters(alloc: Global, text: &[char]) -> Result<Sequence<Token>, ScanFault>
    requires fits { length text.now ≤ MOST_BYTES }
    ensures { AnswersRest (start_of text.now) (unmarked text.now) result }
{
    match text {
        ['\u{FEFF}', rest @ ..] => scan_from(alloc, rest, 3),
        _ => scan_from(alloc, text, 0),
    }
}

/// The tokens of a grammar text in order.
///
/// # Errors
/// - `NotUtf8`: the bytes are no text.
/// - `Syntax`: the first literal, set, arguments, action or comment that doesn't close, or literal or set that holds a bad
///   escape.
/// - `NoMemory`: memory runs out.
pub fn scan(alloc: Global, bytes: &[u8]) -> Result<Sequence<Token>, ScanFault>
    requires fits { length bytes.now ≤ MOST_BYTES }
    ensures value { IsScan bytes.now result }
    ensures spans { IfOk result (AreInOrder 0 (length bytes.now)) }
    ensures texts { IfOk result (AreTexts bytes.now) }
{
    match str::from_utf8(bytes) {
        Ok(text) => {
            let characters: Vec<char> = text.chars().collect(alloc)?;
            scan_characters(alloc, &characters)
        }
        Err(e) => Err(ScanFault::NotUtf8(e.valid_up_to())),
    }
}
