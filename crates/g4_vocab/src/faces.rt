// What is shown of token types.
ghost use Rattle.std.specs.Prelude.{◌≡◌, ◌<◌, ◌^◌, ◌-◌, ◌++◌, IfOk, OnOk, map, option_map};
ghost use Rattle.std.specs.List.{filter_map, range_with_len};
ghost use Rattle.g4_vocab.specs.Shown.{faces, literal_face, name_face, own_face, rule_face, shown_types};
ghost use Rattle.g4_vocab.specs.Tables.{AddsFace, AreShown, face_of, shown_at};

use crate::types::{type_of_literal, type_of_name};
use crate::wholes::Wholes;
use g4_base::{Sequence, Text};
use g4_source::{LexerRule, Literal};
use g4_token_file::{TokenEntry, TokenKey, TokenTable};
use std::alloc::{AllocError, Global};
use std::collections::BTreeMap;

/// A way to show a type.
#[derive(Clone, Copy)]
pub struct Face<'a> {
    pub number: u32,
    pub text: &'a str,
}

/// A literal of a table, as the table has it.
fn literal_face(entry: &TokenEntry) -> Option<Face<'_>>
    ensures { option_map face_of result ≡ literal_face entry.now }
{
    match &entry.key {
        TokenKey::Name(_) => None,
        TokenKey::Literal(_) => Some(Face {
            number: entry.number,
            text: entry.written.as_str(),
        }),
    }
}

/// A name of a table.
fn name_face(entry: &TokenEntry) -> Option<Face<'_>>
    ensures { option_map face_of result ≡ name_face entry.now }
{
    match &entry.key {
        TokenKey::Name(_) => Some(Face {
            number: entry.number,
            text: entry.written.as_str(),
        }),
        TokenKey::Literal(_) => None,
    }
}

/// Adds the literals of a table.
fn push_literals<'a>(found: &mut Vec<Face<'a>>, entries: &'a [TokenEntry]) -> Result<(), AllocError>
    ensures { OnOk result (map face_of found.new.items ≡ map face_of found.old.items ++ filter_map literal_face entries.now) }
{
    for entry in entries {
        if let Some(face) = literal_face(entry) {
            found.push(face)?;
        }
    }
    Ok(())
}

/// Adds the names of a table.
fn push_names<'a>(found: &mut Vec<Face<'a>>, entries: &'a [TokenEntry]) -> Result<(), AllocError>
    ensures { OnOk result (map face_of found.new.items ≡ map face_of found.old.items ++ filter_map name_face entries.now) }
{
    for entry in entries {
        if let Some(face) = name_face(entry) {
            found.push(face)?;
        }
    }
    Ok(())
}

/// A lexer rule's token, as the rule writes its literal.
fn rule_face<'a>(wholes: &Wholes<'_>, types: &TokenTable, rule: &'a LexerRule) -> Option<Face<'a>>
    ensures { option_map face_of result ≡ rule_face (map (λ r. r.now) wholes.now.rules.items) types.now rule.now }
{
    match wholes.literal_of(rule) {
        Some(literal) => Some(Face {
            number: type_of_name(types, rule.name.as_str()),
            text: literal.written.as_str(),
        }),
        None => None,
    }
}

/// Adds the tokens of the lexer rules that are literals.
fn push_rules<'a>(
    found: &mut Vec<Face<'a>>,
    wholes: &Wholes<'_>,
    types: &TokenTable,
    rules: &[&'a LexerRule],
) -> Result<(), AllocError>
    ensures { OnOk result (map face_of found.new.items ≡ map face_of found.old.items
        ++ filter_map (rule_face (map (λ r. r.now) wholes.now.rules.items) types.now) (map (λ r. r.now) rules.now)) }
{
    for rule in rules {
        if let Some(face) = rule_face(wholes, types, *rule) {
            found.push(face)?;
        }
    }
    Ok(())
}

/// Adds the literals that have tokens of their own, as the parser rules first write them.
fn push_own<'a>(
    found: &mut Vec<Face<'a>>,
    types: &TokenTable,
    own: &[&'a Literal],
) -> Result<(), AllocError>
    ensures { OnOk result (map face_of found.new.items
        ≡ map face_of found.old.items ++ map (own_face types.now) (map (λ l. l.now) own.now)) }
{
    for literal in own {
        found.push(Face {
            number: type_of_literal(types, literal.characters.as_slice()),
            text: literal.written.as_str(),
        })?;
    }
    Ok(())
}

/// The ways to show types, the first of each type before the others.
fn faces_of<'a>(
    alloc: Global,
    wholes: &'a Wholes<'_>,
    own: &'a [&Literal],
    types: &'a TokenTable,
) -> Result<Vec<Face<'a>>, AllocError>
    ensures { IfOk result (λ found. map face_of found.items
        ≡ faces (map (λ r. r.now) wholes.now.rules.items) (map (λ l. l.now) own.now) types.now) }
{
    let mut found = Vec::new(alloc);
    push_rules(&mut found, wholes, types, wholes.rules.as_slice())?;
    push_own(&mut found, types, own)?;
    push_literals(&mut found, types.entries())?;
    push_names(&mut found, types.entries())?;
    Ok(found)
}

/// Adds a way to show a type, unless it has one.
fn add_face<'a>(first: &mut BTreeMap<u32, &'a str>, face: Face<'a>) -> Result<(), AllocError>
    ensures { OnOk result (AddsFace (face_of face.entry) first.old first.new) }
{
    if !first.contains_key(&face.number) {
        first.insert(face.number, face.text)?;
    }
    Ok(())
}

/// The first way to show each type.
fn first_faces<'a>(alloc: Global, faces: &[Face<'a>]) -> Result<BTreeMap<u32, &'a str>, AllocError>
    ensures { IfOk result (AreShown (map face_of faces.now)) }
{
    let mut first = BTreeMap::new(alloc);
    for face in faces {
        add_face(&mut first, *face)?;
    }
    Ok(first)
}

/// What is shown of each number from 1 to the greatest: nothing of one that is no type.
fn shown_up_to(
    alloc: Global,
    first: &BTreeMap<u32, &str>,
    greatest: u32,
) -> Result<Vec<Text>, AllocError>
    requires { greatest < 2 ^ 32 - 1 }
    ensures { IfOk result (λ shown. shown.items ≡ map (shown_at first.now) (range_with_len 1 greatest)) }
{
    let mut shown = Vec::new(alloc);
    for number in 1..greatest + 1 {
        let text = match first.get(&number) {
            Some(text) => *text,
            None => "",
        };
        shown.push(Text::copy_of(alloc, text)?)?;
    }
    Ok(shown)
}

/// What is shown of each type from 1 on, of these lexer rules, these literals that have tokens of their own, and this table.
pub fn shown_types(
    alloc: Global,
    wholes: &Wholes<'_>,
    own: &[&Literal],
    types: &TokenTable,
) -> Result<Sequence<Text>, AllocError>
    ensures { IfOk result (λ shown. shown
        ≡ shown_types (map (λ r. r.now) wholes.now.rules.items) (map (λ l. l.now) own.now) types.now) }
{
    let found = faces_of(alloc, wholes, own, types)?;
    let first = first_faces(alloc, found.as_slice())?;
    let shown = shown_up_to(alloc, &first, types.greatest())?;
    Ok(Sequence::new(shown))
}
