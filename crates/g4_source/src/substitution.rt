// Substitution in the elements of the code, one text for every stage.
ghost use Rattle.std.specs.Prelude.{◌≡◌, IfOk, map};
ghost use Rattle.g4_source.specs.Trees.{element_of, in_order};
ghost use Rattle.g4_source.specs.Bind.{bind, in_order_bind};

use crate::name::copy_of_label;
use crate::{Alternative, Element, Elements};
use std::alloc::{AllocError, Global};

/// A stage: which element each atom becomes.
pub trait Substitution<A> {
    type To: Drop;

    ghost use Rattle.g4_source.specs.Elements.{Element as Tree};

    /// The element that an atom becomes.
    ghost image: { Self → A → Tree Self.To };

    /// The element that the atom becomes.
    fn image(&self, alloc: Global, atom: &A) -> Result<Element<Self::To>, AllocError>
        ensures { IfOk result (λ made. element_of made ≡ image self.now atom.now) };
}

/// The element that an element becomes.
#[cycle(substituted)]
fn element<A, S: Substitution<A>>(
    alloc: Global,
    stage: &S,
    old: &Element<A>,
) -> Result<Element<S::To>, AllocError>
    ensures { IfOk result (λ made. element_of made ≡ bind (S.image stage.now) (element_of old.now)) }
{
    match old {
        Element::Atom(atom) => {
            let made = stage.image(alloc, atom)?;
            Ok(made)
        }
        Element::Block(label, repeat, alternatives) => {
            let mut all = Vec::new(alloc);
            for alternative in alternatives {
                let elements = run(alloc, stage, alternative.elements.as_slice())?;
                all.push(Alternative { elements })?;
            }
            let label = copy_of_label(alloc, label)?;
            Ok(Element::Block(label, *repeat, all))
        }
    }
}

/// What elements one after another become.
#[cycle(substituted)]
fn run<A, S: Substitution<A>>(
    alloc: Global,
    stage: &S,
    elements: &[Element<A>],
) -> Result<Vec<Element<S::To>>, AllocError>
    ensures { IfOk result (λ made. in_order (map element_of made.items)
        ≡ in_order_bind (S.image stage.now) (in_order (map element_of elements.now))) }
{
    let mut all = Vec::new(alloc);
    for old in elements {
        all.push(element(alloc, stage, old)?)?;
    }
    Ok(all)
}

/// The elements that these become.
///
/// # Errors
/// No memory.
pub fn substituted<A, S: Substitution<A>>(
    alloc: Global,
    stage: &S,
    elements: &Elements<A>,
) -> Result<Elements<S::To>, AllocError>
    ensures { IfOk result (λ made. made ≡ in_order_bind (S.image stage.now) elements.now) }
{
    let made = run(alloc, stage, elements.as_slice())?;
    Ok(Elements::new(made))
}
