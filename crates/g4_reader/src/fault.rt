// The syntax faults of a text.
ghost use Rattle.std.specs.Prelude.{◌≡◌, ◌≤◌, [], IfOk, length};
ghost use Rattle.g4_base.specs.Place.{first_place, place_after};
ghost use Rattle.g4_grammar_tokens.specs.Answers.{unmarked};
ghost use Rattle.g4_cursor.specs.Texts.{characters_of};
ghost use Rattle.g4_cursor.specs.Parts.{IsPart, AreParts};
ghost use Rattle.g4_reader.specs.Reading.{end_of, fault_at, opened_fault};
ghost use Rattle.g4_cursor.specs.Texts.{from};
ghost use Rattle.g4_reader.specs.Answering.{IsFault};
ghost use Rattle.g4_base.specs.declared.limits.TheConstants.{MOST_BYTES};

use crate::reader::ReadFault;
use g4_base::{Place, Sequence};
use g4_cursor::{characters, token_at};
use g4_grammar_tokens::Token;
use std::alloc::{AllocError, Global};

/// The characters of the fault at the end of a text.
const END: [char; 5] = ['<', 'E', 'O', 'F', '>'];

/// The text without the byte order mark that it may begin with.
fn unmarked(text: &[char]) -> &[char]
    ensures { result.now ≡ unmarked text.now }
{
    match text {
        ['\u{feff}', others @ ..] => others,
        _ => text,
    }
}

/// The place after the characters.
fn place_after(characters: &[char]) -> Place
    requires fits { length characters.now ≤ MOST_BYTES }
    ensures { result ≡ place_after first_place characters.now }
{
    let mut place = Place::START;
    for character in characters {
        place = place.past(*character);
    }
    place
}

/// The place after the text.
fn end_of(alloc: Global, text: &str) -> Result<Place, AllocError>
    requires fits { length text.now ≤ MOST_BYTES }
    ensures { IfOk result (λ place. place ≡ end_of text.now) }
{
    let characters: Vec<char> = text.chars().collect(alloc)?;
    Ok(place_after(unmarked(&characters)))
}

/// The fault at the place, with these characters.
fn syntax(alloc: Global, place: Place, characters: &[char]) -> ReadFault
    ensures { IsFault (record { place = place; characters = characters.now }) result }
{
    match characters.to_vec(alloc) {
        Ok(characters) => ReadFault::Syntax(place, Sequence::new(characters)),
        Err(_) => ReadFault::NoMemory,
    }
}

/// The fault at the token.
fn token_fault(alloc: Global, text: &str, token: &Token) -> ReadFault
    requires part { IsPart text.now token.now }
    ensures { IsFault (record { place = token.now.place; characters = characters_of text.now token.now }) result }
{
    match characters(alloc, text, token) {
        Ok(characters) => ReadFault::Syntax(token.place, Sequence::new(characters)),
        Err(_) => ReadFault::NoMemory,
    }
}

/// The fault at the end of the text.
fn end_fault(alloc: Global, text: &str) -> ReadFault
    requires fits { length text.now ≤ MOST_BYTES }
    ensures { IsFault (fault_at text.now []) result }
{
    match end_of(alloc, text) {
        Ok(place) => syntax(alloc, place, &END),
        Err(_) => ReadFault::NoMemory,
    }
}

/// The fault at the token with this index, or at the end of the text.
pub(crate) fn fault_at(alloc: Global, text: &str, tokens: &[Token], at: usize) -> ReadFault
    requires parts { AreParts text.now tokens.now }
    requires fits { length text.now ≤ MOST_BYTES }
    ensures { IsFault (fault_at text.now (from text.now tokens.now at)) result }
{
    match token_at(tokens, at) {
        Some(token) => token_fault(alloc, text, &token),
        None => end_fault(alloc, text),
    }
}

/// The fault of what is opened by the byte at the index, at the place.
pub(crate) fn opened_fault(alloc: Global, place: Place, bytes: &[u8], index: usize) -> ReadFault
    ensures { IsFault (opened_fault bytes.now (record { place = place; index = index })) result }
{
    match bytes.get(index) {
        Some(byte) => syntax(alloc, place, &[char::from(*byte)]),
        None => syntax(alloc, place, &[]),
    }
}
