// The marks of atoms once the next child is read.
ghost use Rattle.std.specs.Prelude.{◌≡◌, ◌++◌, false, map, IfOk, OnOk, Option};
ghost use Rattle.g4_source.specs.declared.name.Label.{Label as Named};
ghost use Rattle.g4_source.specs.Elements.{atom as lone, block, either};
ghost use Rattle.g4_source.specs.Trees.{element_of, alternative_of, in_order};
ghost use Rattle.g4_tree_check.specs.Children.{is_quiet, takes};
ghost use Rattle.g4_tree_check.specs.Marks.{body_begins, ends, ends_all, ends_either, past, past_all, past_either, shift, shift_all, shift_either};

use crate::child::{Child, takes};
use crate::ending::{End, block_ends, either_of, end_of_atom, end_of_either};
use g4_grammar::Step;
use g4_source::{Alternative, Element, Repeat};
use g4_tokens::Symbols;
use std::alloc::AllocError;

/// Whether the body of a block may go on being read at its beginning.
fn body_begins(
    repeat: Repeat,
    alternatives: &[Alternative<Step<Symbols>>],
    marks: &[bool],
    before: bool,
) -> bool
    ensures { result ≡ body_begins repeat before (ends_either is_quiet false (either (map alternative_of alternatives.now)) marks.now) }
{
    match repeat {
        Repeat::Once => before,
        Repeat::Optional(_) => before,
        Repeat::Star(_) => before || end_of_either(alternatives, marks, false).reached,
        Repeat::Plus(_) => before || end_of_either(alternatives, marks, false).reached,
    }
}

/// Adds the mark of an atom, and gives its end before the child is read.
fn shift_atom<'a>(
    next: &mut Vec<bool>,
    child: Child,
    step: &Step<Symbols>,
    marks: &'a [bool],
    before: bool,
) -> Result<End<'a>, AllocError>
    ensures marks { OnOk result (next.new.items ≡ next.old.items ++ shift is_quiet (takes child) before (lone step.now) marks.now) }
    ensures reached { IfOk result (λ end. end.reached ≡ ends is_quiet before (lone step.now) marks.now) }
    ensures rest { IfOk result (λ end. end.marks.now ≡ past (lone step.now) marks.now) }
{
    next.push(before && takes(child, step))?;
    Ok(end_of_atom(step, marks, before))
}

/// Adds the marks of an element, and gives its end before the child is read.
#[cycle(shifting)]
fn shift_element<'a>(
    next: &mut Vec<bool>,
    child: Child,
    element: &Element<Step<Symbols>>,
    marks: &'a [bool],
    before: bool,
) -> Result<End<'a>, AllocError>
    ensures marks { OnOk result (next.new.items
        ≡ next.old.items ++ shift is_quiet (takes child) before (element_of element.now) marks.now) }
    ensures reached { IfOk result (λ end. end.reached ≡ ends is_quiet before (element_of element.now) marks.now) }
    ensures rest { IfOk result (λ end. end.marks.now ≡ past (element_of element.now) marks.now) }
{
    match element {
        Element::Atom(step) => {
            let end = shift_atom(next, child, step, marks, before)?;
            Ok(end)
        }
        Element::Block(_, repeat, alternatives) => {
            let end = shift_block(next, child, *repeat, alternatives.as_slice(), marks, before)?;
            Ok(end)
        }
    }
}

/// The same of a block.
#[cycle(shifting)]
fn shift_block<'a>(
    next: &mut Vec<bool>,
    child: Child,
    repeat: Repeat,
    alternatives: &[Alternative<Step<Symbols>>],
    marks: &'a [bool],
    before: bool,
) -> Result<End<'a>, AllocError>
    ensures marks { OnOk result ((label : Option Named)
        → next.new.items ≡ next.old.items ++ shift is_quiet (takes child) before
        (block label repeat (either (map alternative_of alternatives.now))) marks.now) }
    ensures reached { IfOk result (λ end. (label : Option Named)
        → end.reached ≡ ends is_quiet before (block label repeat (either (map alternative_of alternatives.now))) marks.now) }
    ensures rest { IfOk result (λ end. end.marks.now ≡ past_either (either (map alternative_of alternatives.now)) marks.now) }
{
    let begins = body_begins(repeat, alternatives, marks, before);
    let body = shift_either(next, child, alternatives, marks, begins)?;
    Ok(End {
        reached: block_ends(repeat, before, body.reached),
        marks: body.marks,
    })
}

/// The same of alternatives.
#[cycle(shifting)]
fn shift_either<'a>(
    next: &mut Vec<bool>,
    child: Child,
    alternatives: &[Alternative<Step<Symbols>>],
    marks: &'a [bool],
    before: bool,
) -> Result<End<'a>, AllocError>
    ensures marks { OnOk result (next.new.items
        ≡ next.old.items ++ shift_either is_quiet (takes child) before (either (map alternative_of alternatives.now)) marks.now) }
    ensures reached { IfOk result (λ end. end.reached
        ≡ ends_either is_quiet before (either (map alternative_of alternatives.now)) marks.now) }
    ensures rest { IfOk result (λ end. end.marks.now ≡ past_either (either (map alternative_of alternatives.now)) marks.now) }
{
    let mut reached = false;
    let mut rest = marks;
    for alternative in alternatives {
        let end = shift_elements(next, child, alternative.elements.as_slice(), rest, before)?;
        reached = either_of(reached, end.reached);
        rest = end.marks;
    }
    Ok(End {
        reached,
        marks: rest,
    })
}

/// The same of elements one after another.
#[cycle(shifting)]
pub(crate) fn shift_elements<'a>(
    next: &mut Vec<bool>,
    child: Child,
    elements: &[Element<Step<Symbols>>],
    marks: &'a [bool],
    before: bool,
) -> Result<End<'a>, AllocError>
    ensures marks { OnOk result (next.new.items
        ≡ next.old.items ++ shift_all is_quiet (takes child) before (in_order (map element_of elements.now)) marks.now) }
    ensures reached { IfOk result (λ end. end.reached ≡ ends_all is_quiet before (in_order (map element_of elements.now)) marks.now) }
    ensures rest { IfOk result (λ end. end.marks.now ≡ past_all (in_order (map element_of elements.now)) marks.now) }
{
    let mut reached = before;
    let mut rest = marks;
    for element in elements {
        let end = shift_element(next, child, element, rest, reached)?;
        reached = end.reached;
        rest = end.marks;
    }
    Ok(End {
        reached,
        marks: rest,
    })
}
