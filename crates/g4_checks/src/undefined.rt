// The first rule that an atom names and that is not there.
ghost use Rattle.std.specs.Prelude.{IfOk, map};
ghost use Rattle.g4_checks.specs.References.{NamesNoRule, atoms_in};
ghost use Rattle.g4_source.specs.First.{Finds, FindsFirst};
ghost use Rattle.g4_checks.specs.Known.{AreSame};
ghost use Rattle.g4_checks.specs.Names.{is_one_of};
ghost use Rattle.g4_checks.specs.Predicates.{IsMissing};
ghost use Rattle.g4_checks.specs.Uses.{IsUndefined, KindIsUndefined, UndefinedInLexer, UndefinedInParser};
ghost use Rattle.g4_checks.specs.Views.{AreParts, use_view};

use crate::atoms::AtomUse;
use crate::inside::undefined_inside;
use crate::names::Names;
use crate::parts::Parts;
use g4_base::Text;
use g4_source::{Atom, AtomKind, LexerRule, ParserRule, RuleKind, Source};
use std::alloc::{AllocError, Global};

/// The names of parser rules.
fn parser_names<'a>(alloc: Global, rules: &[&'a ParserRule<Atom>]) -> Result<Names<'a>, AllocError>
    ensures { IfOk result (λ names. AreSame names (map (λ r. r.now.name) rules.now)) }
{
    let mut names = Names::new(alloc);
    for rule in rules {
        names.add(rule.name.as_str())?;
    }
    Ok(names)
}

/// The names of lexer rules.
fn lexer_names<'a>(alloc: Global, rules: &[&'a LexerRule]) -> Result<Names<'a>, AllocError>
    ensures { IfOk result (λ names. AreSame names (map (λ r. r.now.name) rules.now)) }
{
    let mut names = Names::new(alloc);
    for rule in rules {
        names.add(rule.name.as_str())?;
    }
    Ok(names)
}

/// The name, where it is not one of these.
fn undefined_name(alloc: Global, rules: &Names<'_>, name: &str) -> Result<Option<Text>, AllocError>
    ensures { IfOk result (Finds (IsMissing (is_one_of rules.now)) name.now) }
{
    if rules.has(name) {
        return Ok(None);
    }
    let text = Text::copy_of(alloc, name)?;
    Ok(Some(text))
}

/// The first parser rule that the atom of a parser rule names and that is not there.
fn undefined_in_parser(
    alloc: Global,
    parsers: &Names<'_>,
    atom: &AtomKind,
) -> Result<Option<Text>, AllocError>
    ensures { IfOk result (Finds (UndefinedInParser (is_one_of parsers.now)) atom.now) }
{
    match atom {
        AtomKind::Rule(name) => {
            let found = undefined_name(alloc, parsers, name.text.as_str())?;
            Ok(found)
        }
        AtomKind::Predicate(written) => {
            let found = undefined_inside(alloc, parsers, written)?;
            Ok(found)
        }
        _ => Ok(None),
    }
}

/// The lexer rule that the atom of a lexer rule names, where there is none.
fn undefined_in_lexer(
    alloc: Global,
    lexers: &Names<'_>,
    atom: &AtomKind,
) -> Result<Option<Text>, AllocError>
    ensures { IfOk result (Finds (UndefinedInLexer (is_one_of lexers.now)) atom.now) }
{
    match atom {
        AtomKind::Token(name) => {
            let name = name.text.as_str();
            if name == "EOF" {
                return Ok(None);
            }
            let found = undefined_name(alloc, lexers, name)?;
            Ok(found)
        }
        _ => Ok(None),
    }
}

/// The first rule that the atom names and that is not there.
fn undefined(
    alloc: Global,
    parsers: &Names<'_>,
    lexers: &Names<'_>,
    kind: RuleKind,
    atom: &AtomKind,
) -> Result<Option<Text>, AllocError>
    ensures { IfOk result (Finds (KindIsUndefined (is_one_of parsers.now) (is_one_of lexers.now) kind) atom.now) }
{
    match kind {
        RuleKind::Parser => undefined_in_parser(alloc, parsers, atom),
        RuleKind::Lexer => undefined_in_lexer(alloc, lexers, atom),
    }
}

/// The first rule that the atoms name and that is not one of these.
fn first_undefined(
    alloc: Global,
    parsers: &Names<'_>,
    lexers: &Names<'_>,
    atoms: &[AtomUse<'_>],
) -> Result<Option<Text>, AllocError>
    ensures { IfOk result (FindsFirst (IsUndefined (is_one_of parsers.now) (is_one_of lexers.now)) (map use_view atoms.now)) }
{
    for atom in atoms {
        if let Some(name) = undefined(alloc, parsers, lexers, atom.kind, &atom.atom.kind)? {
            return Ok(Some(name));
        }
    }
    Ok(None)
}

/// The first rule that an atom names and that the grammar has not.
///
/// # Errors
/// No memory.
pub fn first_undefined_rule(
    alloc: Global,
    source: &Source,
    parts: &Parts<'_>,
) -> Result<Option<Text>, AllocError>
    requires { AreParts source.now parts.now }
    ensures { IfOk result (FindsFirst (NamesNoRule source.now) (atoms_in source.now)) }
{
    let parsers = parser_names(alloc, parts.parsers.as_slice())?;
    let lexers = lexer_names(alloc, parts.lexers.as_slice())?;
    let found = first_undefined(alloc, &parsers, &lexers, parts.atoms.as_slice())?;
    Ok(found)
}
