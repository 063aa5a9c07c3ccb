// The tokens that parser rules name, in order of the text.
ghost use Rattle.std.specs.Prelude.{◌≡◌, ◌++◌, IfOk, OnOk, map};
ghost use Rattle.g4_source.specs.Elements.{atoms, atoms_in_order, atoms_of_either};
ghost use Rattle.g4_source.specs.Trees.{element_of, in_order};
ghost use Rattle.g4_source.specs.Rules.{alternatives_of};
ghost use Rattle.g4_vocab.specs.Numbering.{all_atoms, all_references, references};
ghost use Rattle.g4_vocab.specs.Tables.{reference_of};

use g4_source::{Atom, AtomKind, Element, Literal, ParserRule, TokenReference};
use std::alloc::{AllocError, Global};

/// A token by its name or its literal.
#[derive(Clone, Copy)]
pub enum Reference<'a> {
    Token(&'a str),
    Literal(&'a Literal),
}

/// The token that is named.
pub fn reference_to(token: &TokenReference) -> Reference<'_>
    ensures { reference_of result ≡ token.now }
{
    match token {
        TokenReference::Token(name) => Reference::Token(name.as_str()),
        TokenReference::Literal(literal) => Reference::Literal(literal),
    }
}

/// Adds the tokens of a list.
fn push_tokens<'a>(
    found: &mut Vec<Reference<'a>>,
    tokens: &'a [TokenReference],
) -> Result<(), AllocError>
    ensures { OnOk result (map reference_of found.new.items ≡ map reference_of found.old.items ++ tokens.now) }
{
    for token in tokens {
        found.push(reference_to(token))?;
    }
    Ok(())
}

/// Adds the tokens that an atom names.
fn push_atom<'a>(found: &mut Vec<Reference<'a>>, kind: &'a AtomKind) -> Result<(), AllocError>
    ensures { OnOk result (map reference_of found.new.items ≡ map reference_of found.old.items ++ references kind.now) }
{
    match kind {
        AtomKind::Token(name) => {
            found.push(Reference::Token(name.text.as_str()))?;
        }
        AtomKind::Literal(literal) => {
            found.push(Reference::Literal(literal))?;
        }
        AtomKind::NotTokens(tokens) => {
            push_tokens(found, tokens.as_slice())?;
        }
        _ => {}
    }
    Ok(())
}

/// Adds the tokens that an element names.
#[cycle(push)]
fn push_element<'a>(
    found: &mut Vec<Reference<'a>>,
    element: &'a Element<Atom>,
) -> Result<(), AllocError>
    ensures { OnOk result (map reference_of found.new.items
        ≡ map reference_of found.old.items ++ all_references (atoms (element_of element.now))) }
{
    match element {
        Element::Atom(atom) => {
            push_atom(found, &atom.kind)?;
        }
        Element::Block(_, _, alternatives) => {
            for alternative in alternatives {
                push_elements(found, alternative.elements.as_slice())?;
            }
        }
    }
    Ok(())
}

/// Adds the tokens that elements name.
#[cycle(push)]
fn push_elements<'a>(
    found: &mut Vec<Reference<'a>>,
    elements: &'a [Element<Atom>],
) -> Result<(), AllocError>
    ensures { OnOk result (map reference_of found.new.items
        ≡ map reference_of found.old.items ++ all_references (atoms_in_order (in_order (map element_of elements.now)))) }
{
    for element in elements {
        push_element(found, element)?;
    }
    Ok(())
}

/// Adds the tokens that a rule names.
fn push_rule<'a>(
    found: &mut Vec<Reference<'a>>,
    rule: &'a ParserRule<Atom>,
) -> Result<(), AllocError>
    ensures { OnOk result (map reference_of found.new.items
        ≡ map reference_of found.old.items ++ all_references (atoms_of_either (alternatives_of rule.now))) }
{
    for alternative in rule.alternatives.as_slice() {
        push_elements(found, alternative.elements.as_slice())?;
    }
    Ok(())
}

/// The tokens that rules name.
pub fn references_of<'a>(
    alloc: Global,
    rules: &[&'a ParserRule<Atom>],
) -> Result<Vec<Reference<'a>>, AllocError>
    ensures { IfOk result (λ found. map reference_of found.items ≡ all_references (all_atoms (map (λ r. r.now) rules.now))) }
{
    let mut found = Vec::new(alloc);
    for rule in rules {
        push_rule(&mut found, rule)?;
    }
    Ok(found)
}
