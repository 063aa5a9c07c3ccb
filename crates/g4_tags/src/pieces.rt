// The pieces of a pattern's text.
ghost use Rattle.std.specs.Prelude.{◌≡◌, ◌≤◌, ◌<◌, ◌+◌, IfOk, IfSome, drop, encode_utf8_all, get_or, length};
ghost use Rattle.g4_names.specs.Places.{place_in};
ghost use Rattle.g4_tags.specs.Found.{sign_found};
ghost use Rattle.g4_tags.specs.Pieces.{GivesPieces, GivesPiecesOf};

use crate::fault::TagFault;
use crate::joining::{Joining, past};
use crate::sign::{FoundSign, sign_at};
use crate::tag::{Tag, text_of};
use g4_base::{Place, Sequence, Text};
use g4_names::{Places, places_of};
use std::alloc::{AllocError, Global};

/// A text without tags, as long as can be.
#[derive(Drop)]
pub struct PlainText {
    /// Its characters, without the backslashes before `<` and `>`.
    pub text: Text,
    /// For each of its bytes the place in the pattern's text where its character is written, and at the end that of what follows.
    pub places: Sequence<Place>,
}

/// A tag, and where its `<` is in the pattern's text.
#[derive(Drop)]
pub struct PlacedTag {
    pub tag: Tag,
    pub place: Place,
}

/// A part of a pattern's text.
#[derive(Drop)]
pub enum Piece {
    Plain(PlainText),
    Tag(PlacedTag),
}

/// The pieces of a pattern's text, and the place where it ends.
#[derive(Drop)]
pub struct Pieced {
    pub pieces: Sequence<Piece>,
    pub end: Place,
}

/// The bytes of these characters.
fn byte_count(alloc: Global, characters: &[char]) -> Result<usize, AllocError>
    ensures { IfOk result (λ count. count ≡ length (encode_utf8_all characters.now)) }
{
    let text = text_of(alloc, characters)?;
    Ok(text.len())
}

/// The sign at this index.
fn sign_from(
    alloc: Global,
    places: &Places<'_>,
    text: &[char],
    at: usize,
) -> Result<Option<FoundSign>, AllocError>
    requires { at < length text.now }
    ensures value { IfOk result (λ found. found ≡ sign_found (place_in places.now) (get_or text.now at 0) (drop (at + 1) text.now)) }
    ensures fits { IfOk result (λ found. IfSome found (λ f. at + f.width ≤ length text.now)) }
    ensures moves { IfOk result (λ found. IfSome found (λ f. 1 ≤ f.width)) }
{
    let found = sign_at(alloc, places, text[at], &text[at + 1..])?;
    Ok(found)
}

/// The pieces of these characters, where what a tag names has one of these places.
fn read(alloc: Global, places: &Places<'_>, text: &[char]) -> Result<Pieced, TagFault>
    ensures { GivesPiecesOf (place_in places.now) text.now result }
{
    let mut joining = Joining::new(alloc);
    let mut at = 0;
    while at < text.len() {
        let Some(found) = sign_from(alloc, places, text, at)? else {
            return Err(TagFault::Syntax(byte_count(alloc, &text[..at])?));
        };
        let end = at + found.width;
        let next = past(joining.place, &text[at..end])?;
        joining.add(alloc, found.sign, next)?;
        at = end;
    }
    let pieced = joining.finish()?;
    Ok(pieced)
}

/// The pieces of a pattern's text: its tags, each of which names one of the names, and the plain texts between them.
///
/// # Errors
/// - `Syntax` with the byte, counted from 0, of the first `<` with which no tag begins: one that does not close, that is neither `<NAME>`
///   nor `<NAME:NAME>`, or whose last name is none of the names.
/// - `NoMemory`: memory runs out, or there are more lines or columns than numbers of 32 bits.
pub fn read_pieces(alloc: Global, names: &[Text], text: &str) -> Result<Pieced, TagFault>
    ensures { GivesPieces names.now text.now result }
{
    let places = places_of(alloc, names)?;
    let characters: Vec<char> = text.chars().collect(alloc)?;
    read(alloc, &places, &characters)
}
