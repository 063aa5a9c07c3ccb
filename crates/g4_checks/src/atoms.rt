// The atoms of rules in order.
ghost use Rattle.std.specs.Prelude.{◌≡◌, ◌++◌, IfOk, OnOk, map};
ghost use Rattle.g4_source.specs.Elements.{atoms, atoms_in_order, atoms_of_either};
ghost use Rattle.g4_source.specs.Trees.{element_of, in_order};
ghost use Rattle.g4_source.specs.Rules.{alternatives_of, lexer_alternatives_of};
ghost use Rattle.g4_source.specs.Atoms.{all_atoms, atom_in, rule_atoms};
ghost use Rattle.g4_source.specs.Views.{rule_view};
ghost use Rattle.g4_checks.specs.Views.{use_view};
ghost use Rattle.g4_source.specs.declared.kind.RuleKind.TheVariants as kinds;

use g4_source::{Atom, Element, LexerRule, ParserRule, RuleKind, RuleView};
use std::alloc::{AllocError, Global};

/// An atom in a rule of a kind.
#[derive(Clone, Copy)]
pub struct AtomUse<'a> {
    pub kind: RuleKind,
    pub atom: &'a Atom,
}

/// Adds the atoms of an element.
#[cycle(push)]
fn push_element<'a>(
    found: &mut Vec<AtomUse<'a>>,
    kind: RuleKind,
    element: &'a Element<Atom>,
) -> Result<(), AllocError>
    ensures { OnOk result (map use_view found.new.items
        ≡ map use_view found.old.items ++ map (atom_in kind) (atoms (element_of element.now))) }
{
    match element {
        Element::Atom(atom) => {
            found.push(AtomUse { kind, atom })?;
        }
        Element::Block(_, _, alternatives) => {
            for alternative in alternatives {
                push_elements(found, kind, alternative.elements.as_slice())?;
            }
        }
    }
    Ok(())
}

/// Adds the atoms of elements in order.
#[cycle(push)]
fn push_elements<'a>(
    found: &mut Vec<AtomUse<'a>>,
    kind: RuleKind,
    elements: &'a [Element<Atom>],
) -> Result<(), AllocError>
    ensures { OnOk result (map use_view found.new.items
        ≡ map use_view found.old.items ++ map (atom_in kind) (atoms_in_order (in_order (map element_of elements.now)))) }
{
    for element in elements {
        push_element(found, kind, element)?;
    }
    Ok(())
}

/// Adds the atoms of a parser rule.
fn push_parser<'a>(
    found: &mut Vec<AtomUse<'a>>,
    rule: &'a ParserRule<Atom>,
) -> Result<(), AllocError>
    ensures { OnOk result (map use_view found.new.items
        ≡ map use_view found.old.items ++ map (atom_in kinds.Parser) (atoms_of_either (alternatives_of rule.now))) }
{
    for alternative in rule.alternatives.as_slice() {
        push_elements(found, RuleKind::Parser, alternative.elements.as_slice())?;
    }
    Ok(())
}

/// Adds the atoms of a lexer rule.
fn push_lexer<'a>(found: &mut Vec<AtomUse<'a>>, rule: &'a LexerRule) -> Result<(), AllocError>
    ensures { OnOk result (map use_view found.new.items
        ≡ map use_view found.old.items ++ map (atom_in kinds.Lexer) (atoms_of_either (lexer_alternatives_of rule.now))) }
{
    for alternative in rule.alternatives.as_slice() {
        push_elements(found, RuleKind::Lexer, alternative.elements.as_slice())?;
    }
    Ok(())
}

/// Adds the atoms of a rule.
fn push_rule<'a>(found: &mut Vec<AtomUse<'a>>, rule: RuleView<'a>) -> Result<(), AllocError>
    ensures { OnOk result (map use_view found.new.items ≡ map use_view found.old.items ++ rule_atoms (rule_view rule.entry)) }
{
    match rule {
        RuleView::Parser(rule) => {
            push_parser(found, rule)?;
        }
        RuleView::Lexer(rule) => {
            push_lexer(found, rule)?;
        }
    }
    Ok(())
}

/// The atoms of a rule in order.
pub fn rule_atoms_of<'a>(alloc: Global, rule: RuleView<'a>) -> Result<Vec<AtomUse<'a>>, AllocError>
    ensures { IfOk result (λ found. map use_view found.items ≡ rule_atoms (rule_view rule.entry)) }
{
    let mut found = Vec::new(alloc);
    push_rule(&mut found, rule)?;
    Ok(found)
}

/// The atoms of the rules in order.
pub fn atoms_of<'a>(alloc: Global, rules: &[RuleView<'a>]) -> Result<Vec<AtomUse<'a>>, AllocError>
    ensures { IfOk result (λ found. map use_view found.items ≡ all_atoms (map rule_view rules.now)) }
{
    let mut found = Vec::new(alloc);
    for rule in rules {
        push_rule(&mut found, *rule)?;
    }
    Ok(found)
}
