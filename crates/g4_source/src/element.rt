// The elements of a rule: a tree of blocks, which contracts see by its definitions.
ghost use Rattle.std.specs.Prelude.{◌≡◌, map};
ghost use Rattle.g4_source.specs.Trees.{element_of, in_order};

use crate::Label;
use std::marker::Model;

/// The sign after an element. It is greedy where no other `?` follows it.
#[derive(Clone, Copy, Debug, PartialEq, Eq)]
pub struct Suffix {
    pub greedy: bool,
}

/// How often the alternatives of a block may be taken.
#[derive(Clone, Copy, Debug, PartialEq, Eq)]
pub enum Repeat {
    /// Exactly once: there is no sign.
    Once,
    /// `?`: once or not at all.
    Optional(Suffix),
    /// `*`: any number of times.
    Star(Suffix),
    /// `+`: once or more.
    Plus(Suffix),
}

/// An element of a rule.
#[cycle(element)]
#[derive(Drop)]
pub enum Element<A> {
    /// An element that has no others in it.
    Atom(A),
    /// Alternatives in order: a block in brackets, or an element with a sign, which is a block of one alternative.
    Block(Option<Label>, Repeat, Vec<Alternative<A>>),
}

/// An alternative of a block: elements one after another.
#[cycle(element)]
#[derive(Drop)]
pub struct Alternative<A> {
    pub elements: Vec<Element<A>>,
}

/// The elements of an alternative of a rule, which contracts see as a tree.
#[derive(Drop)]
pub struct Elements<A> {
    items: Vec<Element<A>>,
}

impl<A> Model for Elements<A> {
    ghost use Rattle.std.specs.Prelude.{map};
    ghost use Rattle.g4_source.specs.Elements.{Elements as Tree};
    ghost use Rattle.g4_source.specs.Trees.{element_of, in_order};
    ghost use Rattle.g4_source.specs.Marks.{elements_code};

    ghost Value = { Tree A };

    ghost coded = { elements_code A.code };

    ghost view = { λ e. in_order (map element_of e.items.items) };
}

impl<A> Elements<A> {
    /// These elements one after another.
    pub fn new(items: Vec<Element<A>>) -> Self
        ensures { result ≡ in_order (map element_of items.items) }
    {
        Elements { items }
    }

    /// The elements in place.
    pub fn as_slice(&self) -> &[Element<A>]
        ensures { in_order (map element_of result.now) ≡ self.now }
    {
        self.items.as_slice()
    }

    /// The elements as they were given, with no memory taken.
    pub fn into_vec(self) -> Vec<Element<A>>
        ensures { in_order (map element_of result.items) ≡ self }
    {
        let Elements { items } = self;
        items
    }
}
