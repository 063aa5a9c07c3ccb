// The elements of parser rules.
ghost use Rattle.std.specs.Prelude.{◌≡◌};
ghost use Rattle.g4_source.specs.Trees.{alternative_of};
ghost use Rattle.g4_syntax.specs.Notation.{element as an_element, part};
ghost use Rattle.g4_cursor.specs.Progress.{is_next, Gives, GivesAs};
ghost use Rattle.g4_productions.specs.Elements.{labelled_of, item_of, items_of, alternatives_in};
ghost use Rattle.g4_productions.specs.ParserElements.{reference_right, parser_item, parser_items, labelled, lower_item, upper_item, labelled_after, named_item, unnamed, block_of, alternatives_of, alternative_elements};

use crate::suffix::{
    Associated, AssociatedList, Labelled, action, is_at_label_sign, label_sign, optional_suffix,
    with_suffix,
};
use crate::token_set::excluded_tokens;
use g4_cursor::{Cursor, literal, optional_element_options, pass_block_prequel};
use g4_grammar_tokens::Kind;
use g4_source::{Alternative, Atom, AtomKind, Element, Label, Name};
use std::alloc::AllocError;

/// Whether a reference to a rule associates to the right, by what follows the rule's name.
fn reference_end(cursor: &mut Cursor<'_>) -> Result<bool, AllocError>
    ensures { Gives reference_right cursor.old cursor.new result }
{
    cursor.take_if(Kind::Arguments);
    let right = optional_element_options(cursor)?;
    Ok(right)
}

/// An item that begins with no name, with this label.
#[cycle(brackets)]
fn unnamed_item(cursor: &mut Cursor<'_>, label: Option<Label>) -> Result<Labelled, AllocError>
    ensures { GivesAs labelled_of (unnamed label) cursor.old cursor.new result }
{
    if cursor.is_at(Kind::Literal) {
        let taken = cursor.take(Kind::Literal);
        let literal = literal(cursor.alloc(), taken.text)?;
        let right = optional_element_options(cursor)?;
        let kind = AtomKind::Literal(literal);
        return Ok(Labelled::Single(right, Atom { label, kind }));
    }
    if cursor.is_at(Kind::Dot) {
        cursor.take(Kind::Dot);
        let right = optional_element_options(cursor)?;
        let kind = AtomKind::Any;
        return Ok(Labelled::Single(right, Atom { label, kind }));
    }
    if cursor.is_at(Kind::Tilde) {
        cursor.take(Kind::Tilde);
        let references = excluded_tokens(cursor)?;
        let right = false;
        let kind = AtomKind::NotTokens(references);
        return Ok(Labelled::Single(right, Atom { label, kind }));
    }
    let alternatives = block(cursor)?;
    Ok(Labelled::Brackets(label, alternatives))
}

/// An item with this label.
#[cycle(brackets)]
fn item(cursor: &mut Cursor<'_>, label: Option<Label>) -> Result<Labelled, AllocError>
    ensures { GivesAs labelled_of (named_item label) cursor.old cursor.new result }
{
    if cursor.is_at(Kind::Lower) {
        let name = cursor.named(Kind::Lower)?;
        let right = reference_end(cursor)?;
        let kind = AtomKind::Rule(name);
        return Ok(Labelled::Single(right, Atom { label, kind }));
    }
    if cursor.is_at(Kind::Upper) {
        let name = cursor.named(Kind::Upper)?;
        let right = optional_element_options(cursor)?;
        let kind = AtomKind::Token(name);
        return Ok(Labelled::Single(right, Atom { label, kind }));
    }
    let item = unnamed_item(cursor, label)?;
    Ok(item)
}

/// The sign of a label with this name, and the item after it.
#[cycle(brackets)]
fn labelled_after(cursor: &mut Cursor<'_>, name: Name) -> Result<Labelled, AllocError>
    ensures { GivesAs labelled_of (labelled_after name) cursor.old cursor.new result }
{
    let list = label_sign(cursor);
    let labelled = item(cursor, Some(Label { name, list }))?;
    Ok(labelled)
}

/// An item that begins with a lower-case name, its label or a rule's.
#[cycle(brackets)]
fn lower_item(cursor: &mut Cursor<'_>) -> Result<Labelled, AllocError>
    ensures { GivesAs labelled_of lower_item cursor.old cursor.new result }
{
    let name = cursor.named(Kind::Lower)?;
    if is_at_label_sign(cursor) {
        let labelled = labelled_after(cursor, name)?;
        return Ok(labelled);
    }
    let label = None;
    let right = reference_end(cursor)?;
    let kind = AtomKind::Rule(name);
    Ok(Labelled::Single(right, Atom { label, kind }))
}

/// An item that begins with an upper-case name, its label or a token's.
#[cycle(brackets)]
fn upper_item(cursor: &mut Cursor<'_>) -> Result<Labelled, AllocError>
    ensures { GivesAs labelled_of upper_item cursor.old cursor.new result }
{
    let name = cursor.named(Kind::Upper)?;
    if is_at_label_sign(cursor) {
        let labelled = labelled_after(cursor, name)?;
        return Ok(labelled);
    }
    let label = None;
    let right = optional_element_options(cursor)?;
    let kind = AtomKind::Token(name);
    Ok(Labelled::Single(right, Atom { label, kind }))
}

/// An item, perhaps with a label.
#[cycle(brackets)]
fn labelled_item(cursor: &mut Cursor<'_>) -> Result<Labelled, AllocError>
    ensures { GivesAs labelled_of labelled cursor.old cursor.new result }
{
    if cursor.is_at(Kind::Lower) {
        let item = lower_item(cursor)?;
        return Ok(item);
    }
    if cursor.is_at(Kind::Upper) {
        let item = upper_item(cursor)?;
        return Ok(item);
    }
    let item = unnamed_item(cursor, None)?;
    Ok(item)
}

/// An element.
#[cycle(brackets)]
fn element(cursor: &mut Cursor<'_>) -> Result<Associated, AllocError>
    ensures { GivesAs item_of parser_item cursor.old cursor.new result }
{
    if cursor.is_at(Kind::Action) {
        let action = action(cursor)?;
        return Ok(action);
    }
    let labelled = labelled_item(cursor)?;
    let right = labelled.is_right();
    let repeat = optional_suffix(cursor);
    let element = with_suffix(cursor.alloc(), labelled, repeat)?;
    Ok(Associated { element, right })
}

/// Whether an element is next.
fn is_at_element(cursor: &Cursor<'_>) -> bool
    ensures { result ≡ is_next (part an_element) cursor.now }
{
    cursor.is_at(Kind::Lower)
        | cursor.is_at(Kind::Upper)
        | cursor.is_at(Kind::Literal)
        | cursor.is_at(Kind::Dot)
        | cursor.is_at(Kind::Tilde)
        | cursor.is_at(Kind::LeftParenthesis)
        | cursor.is_at(Kind::Action)
}

/// Elements one after another.
#[cycle(brackets)]
pub(crate) fn elements(cursor: &mut Cursor<'_>) -> Result<AssociatedList, AllocError>
    ensures { GivesAs items_of parser_items cursor.old cursor.new result }
{
    let mut elements = Vec::new(cursor.alloc());
    let mut right = false;
    while is_at_element(cursor) {
        let next = element(cursor)?;
        right |= next.right;
        elements.push(next.element)?;
    }
    Ok(AssociatedList { elements, right })
}

/// The alternative of a block. Its options are passed over.
#[cycle(brackets)]
fn alternative(cursor: &mut Cursor<'_>) -> Result<Alternative<Atom>, AllocError>
    ensures { GivesAs alternative_of alternative_elements cursor.old cursor.new result }
{
    optional_element_options(cursor)?;
    let list = elements(cursor)?;
    Ok(Alternative {
        elements: list.elements,
    })
}

/// The alternatives of a block, with bars between.
#[cycle(brackets)]
fn alternatives(cursor: &mut Cursor<'_>) -> Result<Vec<Alternative<Atom>>, AllocError>
    ensures { GivesAs alternatives_in alternatives_of cursor.old cursor.new result }
{
    let first = alternative(cursor)?;
    let mut alternatives = vec![in cursor.alloc(); first]?;
    while cursor.is_at(Kind::Bar) {
        cursor.take(Kind::Bar);
        let alternative = alternative(cursor)?;
        alternatives.push(alternative)?;
    }
    Ok(alternatives)
}

/// The alternatives of a block in brackets.
#[cycle(brackets)]
fn block(cursor: &mut Cursor<'_>) -> Result<Vec<Alternative<Atom>>, AllocError>
    ensures { GivesAs alternatives_in block_of cursor.old cursor.new result }
{
    if !cursor.open() {
        return Ok(Vec::new(cursor.alloc()));
    }
    pass_block_prequel(cursor)?;
    let alternatives = alternatives(cursor)?;
    cursor.take(Kind::RightParenthesis);
    Ok(alternatives)
}
