// What is common to the elements of parser rules and of lexer rules.
ghost use Rattle.std.specs.Prelude.{◌≡◌, IfOk};
ghost use Rattle.g4_source.specs.Elements.{atom as an_atom, block, empty, then, only};
ghost use Rattle.g4_source.specs.Trees.{element_of};
ghost use Rattle.g4_syntax.specs.Notation.{sign, optional};
ghost use Rattle.g4_syntax.specs.Productions.{assign};
ghost use Rattle.g4_grammar_tokens.specs.declared.token.Kind.TheVariants as kinds;
ghost use Rattle.g4_cursor.specs.Progress.{is_next, Moves, GivesAs};
ghost use Rattle.g4_productions.specs.Elements.{signed_atom, unlabelled, is_greedy, is_list, is_right, optional_suffix_of, action_item, item_of, with_suffix};
ghost use Rattle.g4_productions.specs.Elements.{labelled_of};

use g4_cursor::{Cursor, optional_element_options};
use g4_grammar_tokens::Kind;
use g4_source::{Alternative, Atom, AtomKind, Element, Label, Repeat, Suffix};
use std::alloc::{AllocError, Global};

/// An element, and whether `<assoc=right>` follows it: what is in brackets does not count.
#[derive(Drop)]
pub(crate) struct Associated {
    pub element: Element<Atom>,
    pub right: bool,
}

/// Elements one after another, and whether `<assoc=right>` follows one of them.
#[derive(Drop)]
pub(crate) struct AssociatedList {
    pub elements: Vec<Element<Atom>>,
    pub right: bool,
}

/// An element without its sign.
#[derive(Drop)]
pub(crate) enum Labelled {
    /// Whether `<assoc=right>` follows an atom, and the atom with its label.
    Single(bool, Atom),
    /// Alternatives in brackets, and their label.
    Brackets(Option<Label>, Vec<Alternative<Atom>>),
}

impl Labelled {
    /// Whether `<assoc=right>` follows the element.
    pub(crate) fn is_right(&self) -> bool
        ensures { result ≡ is_right (labelled_of self.now) }
    {
        match self {
            Labelled::Single(right, _) => *right,
            Labelled::Brackets(..) => false,
        }
    }
}

/// The block of this atom alone, which takes its label.
fn block_of(alloc: Global, atom: Atom, repeat: Repeat) -> Result<Element<Atom>, AllocError>
    ensures { IfOk result (λ made. element_of made ≡ block atom.label repeat (only (then (an_atom (unlabelled atom)) empty))) }
{
    let Atom { label, kind } = atom;
    let atom = Element::Atom(Atom { label: None, kind });
    let elements = vec![in alloc; atom]?;
    let alternatives = vec![in alloc; Alternative { elements }]?;
    Ok(Element::Block(label, repeat, alternatives))
}

/// The atom with this sign, or with none.
fn atom_with_suffix(alloc: Global, atom: Atom, repeat: Repeat) -> Result<Element<Atom>, AllocError>
    ensures { IfOk result (λ made. element_of made ≡ signed_atom atom repeat) }
{
    match repeat {
        Repeat::Once => Ok(Element::Atom(atom)),
        _ => {
            let block = block_of(alloc, atom, repeat)?;
            Ok(block)
        }
    }
}

/// The element with this sign, or with none.
pub(crate) fn with_suffix(
    alloc: Global,
    labelled: Labelled,
    repeat: Repeat,
) -> Result<Element<Atom>, AllocError>
    ensures { IfOk result (λ made. element_of made ≡ with_suffix (labelled_of labelled) repeat) }
{
    match labelled {
        Labelled::Single(_, atom) => atom_with_suffix(alloc, atom, repeat),
        Labelled::Brackets(label, alternatives) => {
            Ok(Element::Block(label, repeat, alternatives))
        }
    }
}

/// The sign that was taken: it is greedy unless `?` follows.
fn suffix(cursor: &mut Cursor<'_>) -> Suffix
    ensures { Moves {x = optional (sign kinds.Question)} (λ tree. result ≡ record { greedy = is_greedy tree }) cursor.old cursor.new }
{
    let greedy = !cursor.take_if(Kind::Question);
    Suffix { greedy }
}

/// How often an element may be taken, by its sign, if it has one.
pub(crate) fn optional_suffix(cursor: &mut Cursor<'_>) -> Repeat
    ensures { Moves (λ tree. result ≡ optional_suffix_of tree) cursor.old cursor.new }
{
    if cursor.is_at(Kind::Question) {
        cursor.take(Kind::Question);
        return Repeat::Optional(suffix(cursor));
    }
    if cursor.is_at(Kind::Star) {
        cursor.take(Kind::Star);
        return Repeat::Star(suffix(cursor));
    }
    if cursor.is_at(Kind::Plus) {
        cursor.take(Kind::Plus);
        return Repeat::Plus(suffix(cursor));
    }
    Repeat::Once
}

/// Whether the sign of a label is next.
pub(crate) fn is_at_label_sign(cursor: &Cursor<'_>) -> bool
    ensures { result ≡ is_next assign cursor.now }
{
    cursor.is_at(Kind::Equals) | cursor.is_at(Kind::PlusEquals)
}

/// Takes the sign of a label, and says whether it is `+=`.
pub(crate) fn label_sign(cursor: &mut Cursor<'_>) -> bool
    ensures { Moves (λ tree. result ≡ is_list tree) cursor.old cursor.new }
{
    if cursor.is_at(Kind::Equals) {
        cursor.take(Kind::Equals);
        return false;
    }
    cursor.take(Kind::PlusEquals);
    true
}

/// An action or a predicate.
pub(crate) fn action(cursor: &mut Cursor<'_>) -> Result<Associated, AllocError>
    ensures { GivesAs item_of action_item cursor.old cursor.new result }
{
    let label = None;
    let name = cursor.named(Kind::Action)?;
    if !cursor.is_at(Kind::Question) {
        let kind = AtomKind::Action;
        return Ok(Associated {
            element: Element::Atom(Atom { label, kind }),
            right: false,
        });
    }
    cursor.take(Kind::Question);
    let right = optional_element_options(cursor)?;
    let kind = AtomKind::Predicate(name);
    Ok(Associated {
        element: Element::Atom(Atom { label, kind }),
        right,
    })
}
