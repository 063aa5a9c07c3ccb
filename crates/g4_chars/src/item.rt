// The items of a set: the characters and properties that its text spells.
ghost use Rattle.std.specs.Prelude.{◌≡◌, ◌≤◌, ◌+◌, length, IfOk, IfSome, MatchOption, Some, None};
ghost use Rattle.g4_chars.specs.Escapes.{NameIsWithin};
ghost use Rattle.g4_chars.specs.SetText.{escaped_item};
ghost use Rattle.g4_chars.specs.Reading.{item_at, items};

use crate::escape::{Context, Meaning, read_escape};
use crate::property::property_named;
use std::alloc::{AllocError, Global};
use unicode::sets::Set;

/// What is written in a set.
#[derive(Clone, Copy)]
pub enum Item {
    /// A character, and whether it is written without a backslash.
    Member {
        character: char,
        plain: bool,
    },
    /// A property or its complement; none where no property has the name.
    Named {
        complement: bool,
        property: Option<Set>,
    },
}

/// An item, and how many characters after its first belong to it.
#[derive(Clone, Copy)]
pub struct Found {
    pub item: Item,
    pub taken: usize,
}

fn escaped_item(
    alloc: Global,
    meaning: Meaning,
    rest: &[char],
    taken: usize,
) -> Result<Item, AllocError>
    requires taken { taken ≤ length rest.now }
    requires name { NameIsWithin taken meaning }
    ensures { IfOk result (λ item. item ≡ escaped_item meaning rest.now) }
{
    match meaning {
        Meaning::Character(character) => Ok(Item::Member {
            character,
            plain: false,
        }),
        Meaning::Property { complement, length } => {
            let property = property_named(alloc, &rest[2..2 + length])?;
            Ok(Item::Named {
                complement,
                property,
            })
        }
    }
}

/// The item that begins with the character: none at a bad escape.
fn item_at(alloc: Global, c: char, rest: &[char]) -> Result<Option<Found>, AllocError>
    ensures value { IfOk result (λ found. found ≡ item_at c rest.now) }
    ensures within { IfOk result (λ found. IfSome found (λ f. f.taken ≤ length rest.now)) }
{
    if c != '\\' {
        return Ok(Some(Found {
            item: Item::Member {
                character: c,
                plain: true,
            },
            taken: 0,
        }));
    }
    let Some(escape) = read_escape(Context::Set, rest) else {
        return Ok(None);
    };
    let item = escaped_item(alloc, escape.meaning, rest, escape.taken)?;
    Ok(Some(Found {
        item,
        taken: escape.taken,
    }))
}

/// The items of the text: none at a bad escape.
pub fn read_items(alloc: Global, text: &[char]) -> Result<Option<Vec<Item>>, AllocError>
    ensures { IfOk result (λ found. MatchOption found (items text.now ≡ None) (λ v. items text.now ≡ Some v.items)) }
{
    let mut out = Vec::new(alloc);
    let mut at = 0;
    while at < text.len() {
        let Some(found) = item_at(alloc, text[at], &text[at + 1..])? else {
            return Ok(None);
        };
        out.push(found.item)?;
        at += 1 + found.taken;
    }
    Ok(Some(out))
}
