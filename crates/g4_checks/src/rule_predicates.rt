// The predicates of the parser rules of a grammar.
ghost use Rattle.std.specs.Prelude.{IfOk, [], map};
ghost use Rattle.std.specs.List.{cons_option, flat_map};
ghost use Rattle.g4_base.specs.declared.place.Place.{Place};
ghost use Rattle.g4_checks.specs.Predicates.{ArePredicates};
ghost use Rattle.g4_checks.specs.References.{HasPredicates};
ghost use Rattle.g4_checks.specs.Uses.{IsUnknownAt, IsUnknownPredicate, KindIsUnknownPredicate, kind_predicate_text, parser_predicate_text};
ghost use Rattle.g4_checks.specs.Views.{use_view};
ghost use Rattle.g4_grammar.specs.Written.{predicate_text, predicate_texts};
ghost use Rattle.g4_source.specs.First.{IsNone};

use crate::atoms::{AtomUse, atoms_of};
use crate::readings::predicate_of;
use g4_base::Sequence;
use g4_preds::Predicate;
use g4_source::{AtomKind, RuleKind, Source, views_of};
use std::alloc::{AllocError, Global};

/// The predicate that the atom is, where it is one.
fn read_atom(alloc: Global, atom: &AtomKind) -> Result<Option<Predicate>, AllocError>
    requires { (place : Place) → IsUnknownAt atom.now place → ⊥ }
    ensures { IfOk result (λ found. ArePredicates (predicate_text atom.now) (cons_option found [])) }
{
    match atom {
        AtomKind::Predicate(written) => {
            let predicate = predicate_of(alloc, written)?;
            Ok(predicate)
        }
        _ => Ok(None),
    }
}

/// The predicate that the atom is, where it is one of a parser rule.
fn read_use(alloc: Global, kind: RuleKind, atom: &AtomKind) -> Result<Option<Predicate>, AllocError>
    requires { (place : Place) → KindIsUnknownPredicate kind atom.now place → ⊥ }
    ensures { IfOk result (λ found. ArePredicates (kind_predicate_text kind atom.now) (cons_option found [])) }
{
    match kind {
        RuleKind::Parser => {
            let predicate = read_atom(alloc, atom)?;
            Ok(predicate)
        }
        RuleKind::Lexer => Ok(None),
    }
}

/// The predicates of parser rules among the atoms.
fn read_all(alloc: Global, atoms: &[AtomUse<'_>]) -> Result<Sequence<Predicate>, AllocError>
    requires { IsNone IsUnknownPredicate (map use_view atoms.now) }
    ensures { IfOk result (ArePredicates (flat_map (λ x. parser_predicate_text (use_view x)) atoms.now)) }
{
    let mut predicates = Vec::new(alloc);
    for atom in atoms {
        if let Some(predicate) = read_use(alloc, atom.kind, &atom.atom.kind)? {
            predicates.push(predicate)?;
        }
    }
    Ok(Sequence::new(predicates))
}

/// The predicates of the parser rules, in order, where the texts of all of them are known.
///
/// # Errors
/// No memory.
pub fn predicates_of(alloc: Global, source: &Source) -> Result<Sequence<Predicate>, AllocError>
    requires { HasPredicates source.now }
    ensures { IfOk result (ArePredicates (predicate_texts source.now.rules)) }
{
    let rules = views_of(alloc, source.rules.as_slice())?;
    let atoms = atoms_of(alloc, rules.as_slice())?;
    let predicates = read_all(alloc, atoms.as_slice())?;
    Ok(predicates)
}
