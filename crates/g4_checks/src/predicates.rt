// The first predicate in a lexer rule, and the first in a parser rule with a text that no predicate has.
ghost use Rattle.std.specs.Prelude.{IfOk, map};
ghost use Rattle.g4_checks.specs.References.{atoms_in};
ghost use Rattle.g4_source.specs.First.{Finds, FindsFirst};
ghost use Rattle.g4_checks.specs.Uses.{IsLexerPredicate, IsPredicateAt, IsUnknownAt, IsUnknownPredicate, KindIsLexerPredicate, KindIsUnknownPredicate};
ghost use Rattle.g4_checks.specs.Views.{AreParts, use_view};

use crate::atoms::AtomUse;
use crate::parts::Parts;
use crate::readings::predicate_of;
use g4_base::Place;
use g4_source::{AtomKind, RuleKind, Source};
use std::alloc::{AllocError, Global};

/// The place of the atom, where it is a predicate.
fn predicate_place(atom: &AtomKind) -> Option<Place>
    ensures { Finds IsPredicateAt atom.now result }
{
    match atom {
        AtomKind::Predicate(written) => Some(written.place),
        _ => None,
    }
}

/// The place of the atom, where it is a predicate in a lexer rule.
fn lexer_predicate_place(kind: RuleKind, atom: &AtomKind) -> Option<Place>
    ensures { Finds (KindIsLexerPredicate kind) atom.now result }
{
    match kind {
        RuleKind::Parser => None,
        RuleKind::Lexer => predicate_place(atom),
    }
}

/// The place of the first atom that is a predicate in a lexer rule.
pub fn first_in_lexer(atoms: &[AtomUse<'_>]) -> Option<Place>
    ensures { FindsFirst IsLexerPredicate (map use_view atoms.now) result }
{
    for atom in atoms {
        if let Some(place) = lexer_predicate_place(atom.kind, &atom.atom.kind) {
            return Some(place);
        }
    }
    None
}

/// The place of the first predicate in a lexer rule.
pub fn first_lexer_predicate(source: &Source, parts: &Parts<'_>) -> Option<Place>
    requires { AreParts source.now parts.now }
    ensures { FindsFirst IsLexerPredicate (atoms_in source.now) result }
{
    first_in_lexer(parts.atoms.as_slice())
}

/// The place of the atom, where it is a predicate with a text that no predicate has.
fn unknown_place(alloc: Global, atom: &AtomKind) -> Result<Option<Place>, AllocError>
    ensures { IfOk result (Finds IsUnknownAt atom.now) }
{
    match atom {
        AtomKind::Predicate(written) => match predicate_of(alloc, written)? {
            Some(_) => Ok(None),
            None => Ok(Some(written.place)),
        },
        _ => Ok(None),
    }
}

/// The place of the atom, where it is a predicate in a parser rule with a text that no predicate has.
fn unknown_predicate_place(
    alloc: Global,
    kind: RuleKind,
    atom: &AtomKind,
) -> Result<Option<Place>, AllocError>
    ensures { IfOk result (Finds (KindIsUnknownPredicate kind) atom.now) }
{
    match kind {
        RuleKind::Parser => unknown_place(alloc, atom),
        RuleKind::Lexer => Ok(None),
    }
}

/// The place of the first atom that is a predicate in a parser rule with a text that no predicate has.
pub fn first_unknown(alloc: Global, atoms: &[AtomUse<'_>]) -> Result<Option<Place>, AllocError>
    ensures { IfOk result (FindsFirst IsUnknownPredicate (map use_view atoms.now)) }
{
    for atom in atoms {
        if let Some(place) = unknown_predicate_place(alloc, atom.kind, &atom.atom.kind)? {
            return Ok(Some(place));
        }
    }
    Ok(None)
}

/// The place of the first predicate in a parser rule with a text that no predicate has.
///
/// # Errors
/// No memory.
pub fn first_unknown_predicate(
    alloc: Global,
    source: &Source,
    parts: &Parts<'_>,
) -> Result<Option<Place>, AllocError>
    requires { AreParts source.now parts.now }
    ensures { IfOk result (FindsFirst IsUnknownPredicate (atoms_in source.now)) }
{
    let found = first_unknown(alloc, parts.atoms.as_slice())?;
    Ok(found)
}
