// The signs of a pattern's text.
ghost use Rattle.std.specs.Prelude.{◌≡◌, IfOk, Some};
ghost use Rattle.g4_names.specs.Places.{place_in};
ghost use Rattle.g4_tags.specs.Found.{after_backslash, bracket_at, sign_found};

use crate::tag::{Tag, tag_at};
use g4_names::Places;
use std::alloc::{AllocError, Global};

/// A plain character or a tag.
#[derive(Drop)]
pub enum Sign {
    /// A character that is written as itself.
    Letter(char),
    /// A `<` or `>` that is written after a backslash.
    Escaped(char),
    Tagged(Tag),
}

/// A sign at the beginning of a text, and how many characters are written of it.
#[derive(Drop)]
pub struct FoundSign {
    pub sign: Sign,
    pub width: usize,
}

/// The `<` or `>` that the text begins with.
fn bracket_at(text: &[char]) -> Option<char>
    ensures { result ≡ bracket_at text.now }
{
    let [first, ..] = text else {
        return None;
    };
    let first = *first;
    if first == '<' || first == '>' {
        Some(first)
    } else {
        None
    }
}

/// The sign that begins with a backslash, where this is after it.
fn after_backslash(after: &[char]) -> FoundSign
    ensures { Some result ≡ after_backslash (bracket_at after.now) }
{
    match bracket_at(after) {
        Some(bracket) => FoundSign {
            sign: Sign::Escaped(bracket),
            width: 2,
        },
        None => FoundSign {
            sign: Sign::Letter('\\'),
            width: 1,
        },
    }
}

/// The sign that a text begins with, which is a character and what is after it.
pub fn sign_at(
    alloc: Global,
    places: &Places<'_>,
    first: char,
    after: &[char],
) -> Result<Option<FoundSign>, AllocError>
    ensures { IfOk result (λ found. found ≡ sign_found (place_in places.now) first after.now) }
{
    if first == '<' {
        let Some(found) = tag_at(alloc, places, after)? else {
            return Ok(None);
        };
        return Ok(Some(FoundSign {
            sign: Sign::Tagged(found.tag),
            width: found.width + 1,
        }));
    }
    if first == '\\' {
        return Ok(Some(after_backslash(after)));
    }
    Ok(Some(FoundSign {
        sign: Sign::Letter(first),
        width: 1,
    }))
}
