// The elements of lexer rules.
ghost use Rattle.std.specs.Prelude.{◌≡◌};
ghost use Rattle.g4_source.specs.Trees.{element_of};
ghost use Rattle.g4_syntax.specs.Notation.{part, lexer_element};
ghost use Rattle.g4_cursor.specs.Progress.{is_next, GivesAs};
ghost use Rattle.g4_productions.specs.Elements.{labelled_of, elements_in, alternatives_in};
ghost use Rattle.g4_productions.specs.LexerElements.{literal_item, lexer_element_of, lexer_elements, labelled_lexer, upper_lexer_item, labelled_by, named_lexer_item, unnamed_lexer, lexer_block_of, lexer_alternatives};

use crate::excluded::excluded_set;
use crate::literal::take_literal;
use crate::set::set;
use crate::suffix::{Labelled, action, is_at_label_sign, label_sign, optional_suffix, with_suffix};
use g4_cursor::{Cursor, literal, optional_element_options};
use g4_grammar_tokens::Kind;
use g4_source::{Alternative, Atom, AtomKind, Element, Label, Name};
use std::alloc::AllocError;

/// Whether an element of a lexer rule is next.
fn is_at_element(cursor: &Cursor<'_>) -> bool
    ensures { result ≡ is_next (part lexer_element) cursor.now }
{
    cursor.is_at(Kind::Lower)
        | cursor.is_at(Kind::Upper)
        | cursor.is_at(Kind::Literal)
        | cursor.is_at(Kind::Set)
        | cursor.is_at(Kind::Dot)
        | cursor.is_at(Kind::Tilde)
        | cursor.is_at(Kind::LeftParenthesis)
        | cursor.is_at(Kind::Action)
}

/// A literal, or the characters from its own to that of another, with this label.
fn literal_item(cursor: &mut Cursor<'_>, label: Option<Label>) -> Result<Labelled, AllocError>
    ensures { GivesAs labelled_of (literal_item label) cursor.old cursor.new result }
{
    let taken = take_literal(cursor, false)?;
    let first = literal(cursor.alloc(), taken.text)?;
    if cursor.is_at(Kind::DoubleDot) {
        cursor.take(Kind::DoubleDot);
        let other = cursor.take(Kind::Literal);
        let last = literal(cursor.alloc(), other.text)?;
        let right = false;
        let kind = AtomKind::Range(first, last);
        return Ok(Labelled::Single(right, Atom { label, kind }));
    }
    let right = optional_element_options(cursor)?;
    let kind = AtomKind::Literal(first);
    Ok(Labelled::Single(right, Atom { label, kind }))
}

/// An item that begins with no name, with this label.
#[cycle(brackets)]
fn unnamed_item(cursor: &mut Cursor<'_>, label: Option<Label>) -> Result<Labelled, AllocError>
    ensures { GivesAs labelled_of (unnamed_lexer label) cursor.old cursor.new result }
{
    if cursor.is_at(Kind::Literal) {
        let item = literal_item(cursor, label)?;
        return Ok(item);
    }
    let right = false;
    if cursor.is_at(Kind::Set) {
        let set = set(cursor)?;
        let kind = AtomKind::Set(set);
        return Ok(Labelled::Single(right, Atom { label, kind }));
    }
    if cursor.is_at(Kind::Dot) {
        cursor.take(Kind::Dot);
        let kind = AtomKind::Any;
        return Ok(Labelled::Single(right, Atom { label, kind }));
    }
    if cursor.is_at(Kind::Tilde) {
        cursor.take(Kind::Tilde);
        let set = excluded_set(cursor)?;
        let kind = AtomKind::NotCharacters(set);
        return Ok(Labelled::Single(right, Atom { label, kind }));
    }
    let alternatives = block(cursor)?;
    Ok(Labelled::Brackets(label, alternatives))
}

/// An item with this label.
#[cycle(brackets)]
fn item(cursor: &mut Cursor<'_>, label: Option<Label>) -> Result<Labelled, AllocError>
    ensures { GivesAs labelled_of (named_lexer_item label) cursor.old cursor.new result }
{
    if cursor.is_at(Kind::Upper) {
        let name = cursor.named(Kind::Upper)?;
        let right = optional_element_options(cursor)?;
        let kind = AtomKind::Token(name);
        return Ok(Labelled::Single(right, Atom { label, kind }));
    }
    let item = unnamed_item(cursor, label)?;
    Ok(item)
}

/// The sign of a label with this name, and the item after it.
#[cycle(brackets)]
fn labelled_by(cursor: &mut Cursor<'_>, name: Name) -> Result<Labelled, AllocError>
    ensures { GivesAs labelled_of (labelled_by name) cursor.old cursor.new result }
{
    let list = label_sign(cursor);
    let labelled = item(cursor, Some(Label { name, list }))?;
    Ok(labelled)
}

/// An item that begins with an upper-case name, its label or a token's.
#[cycle(brackets)]
fn upper_item(cursor: &mut Cursor<'_>) -> Result<Labelled, AllocError>
    ensures { GivesAs labelled_of upper_lexer_item cursor.old cursor.new result }
{
    let name = cursor.named(Kind::Upper)?;
    if is_at_label_sign(cursor) {
        let labelled = labelled_by(cursor, name)?;
        return Ok(labelled);
    }
    let label = None;
    let right = optional_element_options(cursor)?;
    let kind = AtomKind::Token(name);
    Ok(Labelled::Single(right, Atom { label, kind }))
}

/// An item, perhaps with a label.
#[cycle(brackets)]
fn labelled_item(cursor: &mut Cursor<'_>) -> Result<Labelled, AllocError>
    ensures { GivesAs labelled_of labelled_lexer cursor.old cursor.new result }
{
    if cursor.is_at(Kind::Lower) {
        let name = cursor.named(Kind::Lower)?;
        let item = labelled_by(cursor, name)?;
        return Ok(item);
    }
    if cursor.is_at(Kind::Upper) {
        let item = upper_item(cursor)?;
        return Ok(item);
    }
    let item = unnamed_item(cursor, None)?;
    Ok(item)
}

/// An element.
#[cycle(brackets)]
fn element(cursor: &mut Cursor<'_>) -> Result<Element<Atom>, AllocError>
    ensures { GivesAs element_of lexer_element_of cursor.old cursor.new result }
{
    if cursor.is_at(Kind::Action) {
        let action = action(cursor)?;
        return Ok(action.element);
    }
    let item = labelled_item(cursor)?;
    let repeat = optional_suffix(cursor);
    let element = with_suffix(cursor.alloc(), item, repeat)?;
    Ok(element)
}

/// Elements one after another.
#[cycle(brackets)]
pub(crate) fn elements(cursor: &mut Cursor<'_>) -> Result<Vec<Element<Atom>>, AllocError>
    ensures { GivesAs elements_in lexer_elements cursor.old cursor.new result }
{
    let mut elements = Vec::new(cursor.alloc());
    while is_at_element(cursor) {
        let element = element(cursor)?;
        elements.push(element)?;
    }
    Ok(elements)
}

/// The alternatives of a block, with bars between.
#[cycle(brackets)]
fn alternatives(cursor: &mut Cursor<'_>) -> Result<Vec<Alternative<Atom>>, AllocError>
    ensures { GivesAs alternatives_in lexer_alternatives cursor.old cursor.new result }
{
    let first = elements(cursor)?;
    let mut alternatives = vec![in cursor.alloc(); Alternative { elements: first }]?;
    while cursor.is_at(Kind::Bar) {
        cursor.take(Kind::Bar);
        let elements = elements(cursor)?;
        alternatives.push(Alternative { elements })?;
    }
    Ok(alternatives)
}

/// The alternatives of a block in brackets.
#[cycle(brackets)]
fn block(cursor: &mut Cursor<'_>) -> Result<Vec<Alternative<Atom>>, AllocError>
    ensures { GivesAs alternatives_in lexer_block_of cursor.old cursor.new result }
{
    if !cursor.open() {
        return Ok(Vec::new(cursor.alloc()));
    }
    let alternatives = alternatives(cursor)?;
    cursor.take(Kind::RightParenthesis);
    Ok(alternatives)
}
