// Lexer rules that are a literal and nothing else, those of the default mode among them.
ghost use Rattle.std.specs.Prelude.{◌≡◌, MatchOption, None, Some, map};
ghost use Rattle.g4_source.specs.Trees.{element_of, in_order};
ghost use Rattle.g4_vocab.specs.Numbering.{default_literal, in_default_mode, literal_element, literal_kind, whole_elements, whole_literal};

use g4_source::{Atom, AtomKind, Element, LexerAlternative, LexerRule, Literal};

/// The literal that the atom is.
fn literal_kind(kind: &AtomKind) -> Option<&Literal>
    ensures { MatchOption result (literal_kind kind.now ≡ None) (λ l. literal_kind kind.now ≡ Some l.now) }
{
    match kind {
        AtomKind::Literal(literal) => Some(literal),
        _ => None,
    }
}

/// The literal that the element is.
fn literal_element(element: &Element<Atom>) -> Option<&Literal>
    ensures { MatchOption result (literal_element (element_of element.now) ≡ None)
        (λ l. literal_element (element_of element.now) ≡ Some l.now) }
{
    match element {
        Element::Atom(atom) => literal_kind(&atom.kind),
        Element::Block(..) => None,
    }
}

/// The literal that is the whole of these elements.
fn whole_elements(elements: &[Element<Atom>]) -> Option<&Literal>
    ensures { MatchOption result (whole_elements (in_order (map element_of elements.now)) ≡ None)
        (λ l. whole_elements (in_order (map element_of elements.now)) ≡ Some l.now) }
{
    match elements {
        [element] => literal_element(element),
        _ => None,
    }
}

/// The literal that is the whole of these alternatives.
fn whole_literal(alternatives: &[LexerAlternative]) -> Option<&Literal>
    ensures { MatchOption result (whole_literal alternatives.now ≡ None) (λ l. whole_literal alternatives.now ≡ Some l.now) }
{
    match alternatives {
        [alternative] => whole_elements(alternative.elements.as_slice()),
        _ => None,
    }
}

/// Whether the rule is in the default mode.
fn is_default(rule: &LexerRule) -> bool
    ensures { result ≡ in_default_mode rule.now.mode }
{
    match &rule.mode {
        Some(name) => name.as_str() == "DEFAULT_MODE",
        None => true,
    }
}

/// The literal that a rule of the default mode is.
pub fn default_literal(rule: &LexerRule) -> Option<&Literal>
    ensures { MatchOption result (default_literal rule.now ≡ None) (λ l. default_literal rule.now ≡ Some l.now) }
{
    if is_default(rule) {
        whole_literal(rule.alternatives.as_slice())
    } else {
        None
    }
}
