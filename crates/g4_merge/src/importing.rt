// Which grammars a grammar imports, and which it can import.
ghost use Rattle.std.specs.Prelude.{◌≡◌, ◌++◌, ◌↔◌, IfOk, IsTrue, OnOk, map};
ghost use Rattle.g4_merge.specs.Importing.{CanImport, imported_by, names_in};

use g4_base::Text;
use g4_source::{GrammarKind, Prequel, Source};
use std::alloc::{AllocError, Global};

/// Adds names.
fn push_names<'a>(found: &mut Vec<&'a str>, names: &'a [Text]) -> Result<(), AllocError>
    ensures { OnOk result (map (λ n. n.now) found.new.items ≡ map (λ n. n.now) found.old.items ++ names.now) }
{
    for name in names {
        found.push(name.as_str())?;
    }
    Ok(())
}

/// Adds the names that are imported here.
fn push_imports<'a>(found: &mut Vec<&'a str>, prequel: &'a Prequel) -> Result<(), AllocError>
    ensures { OnOk result (map (λ n. n.now) found.new.items ≡ map (λ n. n.now) found.old.items ++ names_in prequel.now) }
{
    match prequel {
        Prequel::Import(_, names) => push_names(found, names.as_slice()),
        Prequel::Options(_) => Ok(()),
        Prequel::Tokens(..) => Ok(()),
        Prequel::Channels(..) => Ok(()),
    }
}

/// The names of the grammars that a grammar imports, in order of its text. A name can come twice.
///
/// # Errors
/// No memory.
pub fn imported_names<'a>(alloc: Global, source: &'a Source) -> Result<Vec<&'a str>, AllocError>
    ensures { IfOk result (λ names. map (λ n. n.now) names.items ≡ imported_by source.now) }
{
    let mut found = Vec::new(alloc);
    for prequel in source.prequels.as_slice() {
        push_imports(&mut found, prequel)?;
    }
    Ok(found)
}

/// Whether a grammar can import one of this kind, which has modes beside the default one or not, those of its own imports included: a
/// lexer grammar imports lexer grammars, a parser grammar parser grammars, and a combined grammar any that have the default mode alone.
pub fn can_import(importer: GrammarKind, imported: GrammarKind, modes: bool) -> bool
    ensures { IsTrue result ↔ CanImport importer imported modes }
{
    match (importer, imported) {
        (GrammarKind::Lexer, GrammarKind::Lexer) => true,
        (GrammarKind::Parser, GrammarKind::Parser) => true,
        (GrammarKind::Combined, _) => !modes,
        _ => false,
    }
}
