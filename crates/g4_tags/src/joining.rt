// Signs that are joined to pieces.
ghost use Rattle.std.specs.Prelude.{◌≡◌, ◌++◌, IfOk, List, None, OnOk, [], ◌∷◌, encode_utf8, length, replicate, string_bytes};
ghost use Rattle.g4_base.specs.Place.{first_place, place_after, place_past};
ghost use Rattle.g4_tags.specs.Joining.{joined};
ghost use Rattle.g4_tags.specs.Pieces.{with_character, with_sign};
ghost use Rattle.g4_tags.specs.declared.pieces.Piece.{Piece as PieceOf};
ghost use Rattle.g4_tags.specs.declared.sign.Sign.TheVariants.{Tagged};

use crate::pieces::{Piece, Pieced, PlacedTag, PlainText};
use crate::sign::Sign;
use crate::tag::Tag;
use g4_base::{Place, Sequence, Text};
use std::alloc::{AllocError, Global};

/// A plain text that may go on, and the place of each of its bytes.
#[derive(Drop)]
pub struct BegunText {
    pub text: String,
    pub places: Vec<Place>,
}

/// The pieces so far, the plain text that may go on, and the place of what follows.
#[derive(Drop)]
pub struct Joining {
    pub pieces: Vec<Piece>,
    pub begun: Option<BegunText>,
    pub place: Place,
}

/// The place after this character.
fn past_one(place: Place, character: char) -> Result<Place, AllocError>
    ensures { IfOk result (λ after. after ≡ place_past place character) }
{
    if place.line == u32::MAX || place.column == u32::MAX {
        return Err(AllocError);
    }
    Ok(place.past(character))
}

/// The place after these characters.
///
/// # Errors
/// No memory, also where there are more lines or columns than numbers of 32 bits.
pub fn past(place: Place, characters: &[char]) -> Result<Place, AllocError>
    ensures { IfOk result (λ after. after ≡ place_after place characters.now) }
{
    let mut after = place;
    for c in characters {
        after = past_one(after, *c)?;
    }
    Ok(after)
}

/// Adds this place so many times.
fn push_places(places: &mut Vec<Place>, count: usize, place: Place) -> Result<(), AllocError>
    ensures { OnOk result (places.new.items ≡ places.old.items ++ replicate count place) }
{
    for _ in 0..count {
        places.push(place)?;
    }
    Ok(())
}

/// Adds a character whose place is this one.
fn push_character(begun: &mut BegunText, character: char, place: Place) -> Result<(), AllocError>
    ensures text { OnOk result (string_bytes begun.new.text ≡ string_bytes begun.old.text ++ encode_utf8 character) }
    ensures places { OnOk result (begun.new.places.items ≡ begun.old.places.items ++ replicate (length (encode_utf8 character)) place) }
{
    begun.text.push(character)?;
    push_places(&mut begun.places, character.len_utf8(), place)
}

impl Joining {
    /// At the start of a text.
    pub fn new(alloc: Global) -> Joining
        ensures pieces { result.pieces.items ≡ [] }
        ensures begun { result.begun ≡ None }
        ensures place { result.place ≡ first_place }
    {
        Joining {
            pieces: Vec::new(alloc),
            begun: None,
            place: Place::START,
        }
    }

    /// Closes the plain text, if one has begun.
    fn close(&mut self) -> Result<(), AllocError>
        ensures begun { OnOk result (self.new.begun ≡ None) }
        ensures place { OnOk result (self.new.place ≡ self.old.place) }
        ensures closed { OnOk result (self.new.pieces.items ≡ joined self.old []) }
    {
        let Some(BegunText { text, mut places }) = self.begun.take() else {
            return Ok(());
        };
        places.push(self.place)?;
        self.pieces.push(Piece::Plain(PlainText {
            text: Text::new(text),
            places: Sequence::new(places),
        }))?;
        Ok(())
    }

    /// Adds a character to the plain text, or begins one with it, and goes on to the next place.
    fn add_character(
        &mut self,
        alloc: Global,
        character: char,
        next: Place,
    ) -> Result<(), AllocError>
        ensures place { OnOk result (self.new.place ≡ next) }
        ensures added { OnOk result ((pieces : List PieceOf)
            → joined self.new pieces ≡ joined self.old (with_character character self.old.place next pieces)) }
    {
        let mut begun = match self.begun.take() {
            Some(begun) => begun,
            None => BegunText {
                text: String::new(alloc),
                places: Vec::new(alloc),
            },
        };
        push_character(&mut begun, character, self.place)?;
        self.begun = Some(begun);
        self.place = next;
        Ok(())
    }

    /// Adds a tag, and goes on to the next place.
    fn add_tag(&mut self, tag: Tag, next: Place) -> Result<(), AllocError>
        ensures place { OnOk result (self.new.place ≡ next) }
        ensures added { OnOk result ((pieces : List PieceOf)
            → joined self.new pieces ≡ joined self.old (with_sign (Tagged tag) self.old.place next pieces)) }
    {
        self.close()?;
        let place = self.place;
        self.pieces.push(Piece::Tag(PlacedTag { tag, place }))?;
        self.place = next;
        Ok(())
    }

    /// Adds a sign, and goes on to the next place.
    pub fn add(&mut self, alloc: Global, sign: Sign, next: Place) -> Result<(), AllocError>
        ensures place { OnOk result (self.new.place ≡ next) }
        ensures added { OnOk result ((pieces : List PieceOf)
            → joined self.new pieces ≡ joined self.old (with_sign sign self.old.place next pieces)) }
    {
        match sign {
            Sign::Letter(c) => self.add_character(alloc, c, next),
            Sign::Escaped(c) => self.add_character(alloc, c, next),
            Sign::Tagged(tag) => self.add_tag(tag, next),
        }
    }

    /// The pieces, at the end of the text.
    pub fn finish(mut self) -> Result<Pieced, AllocError>
        ensures pieces { IfOk result (λ pieced. pieced.pieces ≡ joined self []) }
        ensures end { IfOk result (λ pieced. pieced.end ≡ self.place) }
    {
        self.close()?;
        let Joining { pieces, place, .. } = self;
        Ok(Pieced {
            pieces: Sequence::new(pieces),
            end: place,
        })
    }
}
