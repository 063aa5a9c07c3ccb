// The tags of a pattern.
ghost use Rattle.std.specs.Prelude.{◌≡◌, ◌≤◌, ◌<◌, ◌+◌, ◌++◌, IfOk, IfSome, OnOk, drop, encode_utf8_all, length, slice_get, string_bytes};
ghost use Rattle.std.specs.List.{prefix_len};
ghost use Rattle.g4_grammar_tokens.specs.Characters.{is_name_part};
ghost use Rattle.g4_names.specs.Places.{place_in};
ghost use Rattle.g4_tags.specs.Found.{labelled_by, name_end, tag_found, tag_named};
ghost use Rattle.g4_tags.specs.Signs.{bound_name, label_written, tag_written};

use g4_base::{Sequence, Text};
use g4_names::Places;
use std::alloc::{AllocError, Global};
use unicode::properties::is_alphabetic;

/// A tag: its label, where it has one, and its name, which is one of those that a tag may have.
#[derive(Drop)]
pub struct Tag {
    /// The characters of the label.
    pub label: Option<Sequence<char>>,
    /// The characters of the name.
    pub name: Sequence<char>,
    /// The place of the name among all names, counted from 0.
    pub named: u32,
}

/// A tag at the beginning of a text, and how many characters are written of it after its `<`.
#[derive(Drop)]
pub struct FoundTag {
    pub tag: Tag,
    pub width: usize,
}

fn is_name_part(c: char) -> bool
    ensures { result ≡ is_name_part c }
{
    is_alphabetic(c) || c.is_ascii_digit() || c == '_'
}

/// How many letters, digits and `_` the text begins with.
fn part_count(text: &[char]) -> usize
    ensures value { result ≡ prefix_len is_name_part text.now }
    ensures within { result ≤ length text.now }
{
    text.iter().take_while(|c| is_name_part(**c)).count()
}

/// How long the longest name is with which the text begins.
fn name_end(text: &[char]) -> Option<usize>
    ensures value { result ≡ name_end text.now }
    ensures within { IfSome result (λ end. end ≤ length text.now) }
{
    let [first, after @ ..] = text else {
        return None;
    };
    if !is_alphabetic(*first) {
        return None;
    }
    Some(1 + part_count(after))
}

fn character_at(text: &[char], at: usize) -> Option<char>
    ensures value { result ≡ slice_get text.now at }
    ensures within { IfSome result (λ _. at < length text.now) }
{
    text.get(at).copied()
}

/// Adds characters.
fn push_characters(text: &mut String, characters: &[char]) -> Result<(), AllocError>
    ensures { OnOk result (string_bytes text.new ≡ string_bytes text.old ++ encode_utf8_all characters.now) }
{
    for c in characters {
        text.push(*c)?;
    }
    Ok(())
}

/// The text of these characters.
pub fn text_of(alloc: Global, characters: &[char]) -> Result<String, AllocError>
    ensures { IfOk result (λ t. string_bytes t ≡ encode_utf8_all characters.now) }
{
    let mut text = String::new(alloc);
    push_characters(&mut text, characters)?;
    Ok(text)
}

/// The characters.
fn characters(alloc: Global, text: &[char]) -> Result<Sequence<char>, AllocError>
    ensures { IfOk result (λ copy. copy ≡ text.now) }
{
    let copy = text.to_vec(alloc)?;
    Ok(Sequence::new(copy))
}

/// The tag with this label and this name, if it names something.
fn named(
    alloc: Global,
    places: &Places<'_>,
    label: Option<Sequence<char>>,
    name: &[char],
    width: usize,
) -> Result<Option<FoundTag>, AllocError>
    ensures { IfOk result (λ found. found ≡ tag_named (place_in places.now) label name.now width) }
{
    let text = text_of(alloc, name)?;
    let Some(named) = places.place_of(text.as_str()) else {
        return Ok(None);
    };
    let name = characters(alloc, name)?;
    Ok(Some(FoundTag {
        tag: Tag { label, name, named },
        width,
    }))
}

/// The tag whose label is the first `first` characters of a text.
fn labelled(
    alloc: Global,
    places: &Places<'_>,
    text: &[char],
    first: usize,
) -> Result<Option<FoundTag>, AllocError>
    requires { first < length text.now }
    ensures { IfOk result (λ found. found ≡ labelled_by (place_in places.now) text.now first
        (name_end (drop (first + 1) text.now))) }
{
    let after = &text[first + 1..];
    let Some(end) = name_end(after) else {
        return Ok(None);
    };
    let Some(next) = character_at(after, end) else {
        return Ok(None);
    };
    if next != '>' {
        return Ok(None);
    }
    let label = characters(alloc, &text[..first])?;
    let found = named(alloc, places, Some(label), &after[..end], first + end + 2)?;
    Ok(found)
}

/// The tag that the text begins with, but for its `<`.
pub fn tag_at(
    alloc: Global,
    places: &Places<'_>,
    text: &[char],
) -> Result<Option<FoundTag>, AllocError>
    ensures { IfOk result (λ found. found ≡ tag_found (place_in places.now) text.now) }
{
    let Some(end) = name_end(text) else {
        return Ok(None);
    };
    let Some(next) = character_at(text, end) else {
        return Ok(None);
    };
    if next == '>' {
        let found = named(alloc, places, None, &text[..end], end + 1)?;
        return Ok(found);
    }
    if next == ':' {
        let found = labelled(alloc, places, text, end)?;
        return Ok(found);
    }
    Ok(None)
}

/// Adds the label and `:`, where there is one.
fn push_label(characters: &mut Vec<char>, label: &Option<Sequence<char>>) -> Result<(), AllocError>
    ensures { OnOk result (characters.new.items ≡ characters.old.items ++ label_written label.now) }
{
    if let Some(label) = label {
        characters.extend_from_slice(label.as_slice())?;
        characters.push(':')?;
    }
    Ok(())
}

impl Tag {
    /// The tag as it is written.
    ///
    /// # Errors
    /// No memory.
    pub fn written(&self, alloc: Global) -> Result<Text, AllocError>
        ensures { IfOk result (λ t. t ≡ encode_utf8_all (tag_written self.now.label self.now.name)) }
    {
        let mut characters = Vec::new(alloc);
        characters.push('<')?;
        push_label(&mut characters, &self.label)?;
        characters.extend_from_slice(self.name.as_slice())?;
        characters.push('>')?;
        let text = text_of(alloc, &characters)?;
        Ok(Text::new(text))
    }

    /// The name to which the tag binds what it matches: its label, where it has one, and else its name.
    ///
    /// # Errors
    /// No memory.
    pub fn bound_name(&self, alloc: Global) -> Result<Text, AllocError>
        ensures { IfOk result (λ t. t ≡ encode_utf8_all (bound_name self.now.label self.now.name)) }
    {
        let name = match &self.label {
            Some(label) => label.as_slice(),
            None => self.name.as_slice(),
        };
        let text = text_of(alloc, name)?;
        Ok(Text::new(text))
    }
}
