// Whether children are a word of elements.
ghost use Rattle.std.specs.Prelude.{◌≡◌, ◌↔◌, IfOk, IsTrue};
ghost use Rattle.g4_tokens.specs.TokenList.{word_of};
ghost use Rattle.g4_tree_check.specs.TreesOf.{DerivesChildren};

use crate::child::child_of;
use crate::ending::end_of_elements;
use crate::shifting::shift_elements;
use g4_grammar::Step;
use g4_source::Elements;
use g4_tokens::{Symbols, Token};
use g4_trees::Item;
use std::alloc::{AllocError, Global};
use std::mem;

/// Whether the children, each given by its first item, are a word of the elements. It reads each child once: a mark on an atom
/// says that the atom may have read the last child.
///
/// # Errors
/// No memory.
pub(crate) fn derives(
    alloc: Global,
    elements: &Elements<Step<Symbols>>,
    heads: &[Item],
    tokens: &[Token],
) -> Result<bool, AllocError>
    ensures { IfOk result (λ yes. IsTrue yes ↔ DerivesChildren (word_of tokens.now) elements.now heads.now) }
{
    let elements = elements.as_slice();
    let mut marks = Vec::new(alloc);
    let mut next = Vec::new(alloc);
    let mut first = true;
    for head in heads {
        let child = child_of(head, tokens);
        next.clear();
        shift_elements(&mut next, child, elements, marks.as_slice(), first)?;
        mem::swap(&mut marks, &mut next);
        first = false;
    }
    Ok(end_of_elements(elements, marks.as_slice(), first).reached)
}
