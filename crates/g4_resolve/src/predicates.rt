// The texts of the predicates of parser rules, in order of the text.
ghost use Rattle.std.specs.Prelude.{◌≡◌, ◌++◌, IfOk, OnOk, map};
ghost use Rattle.std.specs.List.{flat_map};
ghost use Rattle.g4_source.specs.Elements.{atoms, atoms_in_order};
ghost use Rattle.g4_source.specs.Trees.{element_of, in_order};
ghost use Rattle.g4_grammar.specs.Written.{predicate_text, rule_predicates};
ghost use Rattle.g4_resolve.specs.Texts.{texts_among};

use g4_base::Text;
use g4_source::{Atom, AtomKind, Element, ParserRule};
use std::alloc::{AllocError, Global};

/// Adds the text of an atom, where it is a predicate.
fn push_atom(alloc: Global, found: &mut Vec<Text>, kind: &AtomKind) -> Result<(), AllocError>
    ensures { OnOk result (found.new.items ≡ found.old.items ++ predicate_text kind.now) }
{
    match kind {
        AtomKind::Predicate(name) => {
            found.push(Text::copy_of(alloc, name.text.as_str())?)?;
        }
        _ => {}
    }
    Ok(())
}

/// Adds the texts of the predicates of an element.
#[cycle(push)]
fn push_element(
    alloc: Global,
    found: &mut Vec<Text>,
    element: &Element<Atom>,
) -> Result<(), AllocError>
    ensures { OnOk result (found.new.items ≡ found.old.items ++ texts_among (atoms (element_of element.now))) }
{
    match element {
        Element::Atom(atom) => {
            push_atom(alloc, found, &atom.kind)?;
        }
        Element::Block(_, _, alternatives) => {
            for alternative in alternatives {
                push_elements(alloc, found, alternative.elements.as_slice())?;
            }
        }
    }
    Ok(())
}

/// Adds the texts of the predicates of elements.
#[cycle(push)]
fn push_elements(
    alloc: Global,
    found: &mut Vec<Text>,
    elements: &[Element<Atom>],
) -> Result<(), AllocError>
    ensures { OnOk result (found.new.items
        ≡ found.old.items ++ texts_among (atoms_in_order (in_order (map element_of elements.now)))) }
{
    for element in elements {
        push_element(alloc, found, element)?;
    }
    Ok(())
}

/// Adds the texts of the predicates of a rule.
fn push_rule(
    alloc: Global,
    found: &mut Vec<Text>,
    rule: &ParserRule<Atom>,
) -> Result<(), AllocError>
    ensures { OnOk result (found.new.items ≡ found.old.items ++ rule_predicates rule.now) }
{
    for alternative in rule.alternatives.as_slice() {
        push_elements(alloc, found, alternative.elements.as_slice())?;
    }
    Ok(())
}

/// The texts of the predicates of rules.
pub fn texts_of(alloc: Global, rules: &[&ParserRule<Atom>]) -> Result<Vec<Text>, AllocError>
    ensures { IfOk result (λ found. found.items ≡ flat_map rule_predicates (map (λ r. r.now) rules.now)) }
{
    let mut found = Vec::new(alloc);
    for rule in rules {
        push_rule(alloc, &mut found, rule)?;
    }
    Ok(found)
}
