// Where what was read may end, by the marks of atoms.
ghost use Rattle.std.specs.Prelude.{◌≡◌, ◌||◌, ◌&&◌, map};
ghost use Rattle.g4_source.specs.Elements.{either};
ghost use Rattle.g4_source.specs.Trees.{element_of, alternative_of, in_order};
ghost use Rattle.g4_tree_check.specs.Children.{is_quiet};
ghost use Rattle.g4_tree_check.specs.Marks.{block_ends, ends, ends_all, ends_either, first_mark, more_marks, past, past_all, past_either};

use crate::child::is_quiet;
use g4_grammar::Step;
use g4_source::{Alternative, Element, Repeat};
use g4_tokens::Symbols;

/// What is found at the end of an element: whether what was read may end there, and the marks of the atoms after it.
#[derive(Clone, Copy)]
pub(crate) struct End<'a> {
    pub(crate) reached: bool,
    pub(crate) marks: &'a [bool],
}

/// One or the other.
pub(crate) fn either_of(one: bool, other: bool) -> bool
    ensures { result ≡ (one || other) }
{
    one || other
}

/// Whether a block is read to its end, where what is before it is or not, and its body is or not.
pub(crate) fn block_ends(repeat: Repeat, before: bool, body: bool) -> bool
    ensures { result ≡ block_ends repeat before body }
{
    match repeat {
        Repeat::Once => body,
        Repeat::Optional(_) => before || body,
        Repeat::Star(_) => before || body,
        Repeat::Plus(_) => body,
    }
}

/// The mark of the first atom, and the other marks.
fn first_mark(marks: &[bool]) -> End<'_>
    ensures first { result.reached ≡ first_mark marks.now }
    ensures more { result.marks.now ≡ more_marks marks.now }
{
    match marks.split_first() {
        Some((mark, more)) => End {
            reached: *mark,
            marks: more,
        },
        None => End {
            reached: false,
            marks,
        },
    }
}

/// The end of an atom.
pub(crate) fn end_of_atom<'a>(step: &Step<Symbols>, marks: &'a [bool], before: bool) -> End<'a>
    ensures reached { result.reached ≡ (first_mark marks.now || (before && is_quiet step.now)) }
    ensures marks { result.marks.now ≡ more_marks marks.now }
{
    let first = first_mark(marks);
    End {
        reached: first.reached || (before && is_quiet(step)),
        marks: first.marks,
    }
}

/// The end of an element.
#[cycle(ending)]
fn end_of_element<'a>(element: &Element<Step<Symbols>>, marks: &'a [bool], before: bool) -> End<'a>
    ensures reached { result.reached ≡ ends is_quiet before (element_of element.now) marks.now }
    ensures marks { result.marks.now ≡ past (element_of element.now) marks.now }
{
    match element {
        Element::Atom(step) => end_of_atom(step, marks, before),
        Element::Block(_, repeat, alternatives) => {
            let body = end_of_either(alternatives.as_slice(), marks, before);
            End {
                reached: block_ends(*repeat, before, body.reached),
                marks: body.marks,
            }
        }
    }
}

/// The end of alternatives.
#[cycle(ending)]
pub(crate) fn end_of_either<'a>(
    alternatives: &[Alternative<Step<Symbols>>],
    marks: &'a [bool],
    before: bool,
) -> End<'a>
    ensures reached { result.reached ≡ ends_either is_quiet before (either (map alternative_of alternatives.now)) marks.now }
    ensures marks { result.marks.now ≡ past_either (either (map alternative_of alternatives.now)) marks.now }
{
    let mut reached = false;
    let mut rest = marks;
    for alternative in alternatives {
        let end = end_of_elements(alternative.elements.as_slice(), rest, before);
        reached = either_of(reached, end.reached);
        rest = end.marks;
    }
    End {
        reached,
        marks: rest,
    }
}

/// The end of elements one after another.
#[cycle(ending)]
pub(crate) fn end_of_elements<'a>(
    elements: &[Element<Step<Symbols>>],
    marks: &'a [bool],
    before: bool,
) -> End<'a>
    ensures reached { result.reached ≡ ends_all is_quiet before (in_order (map element_of elements.now)) marks.now }
    ensures marks { result.marks.now ≡ past_all (in_order (map element_of elements.now)) marks.now }
{
    let mut reached = before;
    let mut rest = marks;
    for element in elements {
        let end = end_of_element(element, rest, reached);
        reached = end.reached;
        rest = end.marks;
    }
    End {
        reached,
        marks: rest,
    }
}
