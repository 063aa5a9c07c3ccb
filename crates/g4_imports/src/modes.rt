// Which grammars have a mode beside the default one, themselves or by what they import: this follows from a definite clause for each
// that declares one, and one for each import.
ghost use Rattle.std.specs.Prelude.{◌≡◌, ◌+◌, ◌<◌, ◌≤◌, ◌^◌, ◌++◌, ◌∷◌, [], List, Contains, IfOk, OnOk, Some, length, slice_get};
ghost use Rattle.g4_fetch.specs.declared.closure.Import.{Import as Imported};
ghost use Rattle.g4_fetch.specs.declared.closure.WithImports.{WithImports as Grammar};
ghost use Rattle.g4_horn.specs.Follows.{Tells};
ghost use Rattle.g4_imports.specs.Clauses.{Covers};
ghost use Rattle.g4_imports.specs.Modes.{HasMode, declares_mode, is_other_mode};

use g4_fetch::{GrammarFile, Import, WithImports};
use g4_horn::{Clause, consequences};
use g4_source::Source;
use std::alloc::{AllocError, Global};

/// Whether it is the name of another mode than the default one.
fn is_other_mode(name: &str) -> bool
    ensures { result ≡ is_other_mode name.now }
{
    name != "DEFAULT_MODE"
}

/// Whether the grammar itself declares a mode beside the default one.
fn declares_mode(source: &Source) -> bool
    ensures { result ≡ declares_mode source.now }
{
    let modes = source.modes.as_slice();
    modes.iter().any(|mode| is_other_mode(mode.as_str()))
}

/// Adds the clause of the grammar with this number, if it declares a mode.
fn push_own(
    alloc: Global,
    clauses: &mut Vec<Clause>,
    number: u32,
    file: &GrammarFile,
) -> Result<(), AllocError>
    ensures { (grammar : Grammar) → slice_get grammar.files number ≡ Some file.now → Covers grammar number [] clauses.old.items
        → OnOk result (Covers grammar (number + 1) [] clauses.new.items) }
{
    if !declares_mode(&file.source) {
        return Ok(());
    }
    let needs = Vec::new(alloc);
    clauses.push(Clause {
        head: number,
        needs,
    })?;
    Ok(())
}

/// Adds the clauses of the grammars that declare modes.
fn push_owns(
    alloc: Global,
    clauses: &mut Vec<Clause>,
    files: &[GrammarFile],
) -> Result<(), AllocError>
    requires { length files.now < 2 ^ 32 }
    ensures { (grammar : Grammar) → grammar.files ≡ files.now → Covers grammar 0 [] clauses.old.items
        → OnOk result (Covers grammar (length files.now) [] clauses.new.items) }
{
    for (number, file) in files.iter().enumerate() {
        push_own(alloc, clauses, number as u32, file)?;
    }
    Ok(())
}

/// Adds the clause of an import among so many files.
fn push_import(
    alloc: Global,
    clauses: &mut Vec<Clause>,
    count: usize,
    import: &Import,
) -> Result<(), AllocError>
    requires { count < 2 ^ 32 }
    ensures { (grammar : Grammar) (before : List Imported) → length grammar.files ≡ count → Contains grammar.imports import.now
        → Covers grammar count before clauses.old.items
        → OnOk result (Covers grammar count (before ++ import.now ∷ []) clauses.new.items) }
{
    if count <= import.importer {
        return Ok(());
    }
    if count <= import.imported {
        return Ok(());
    }
    let needs = vec![in alloc; import.imported as u32]?;
    let head = import.importer as u32;
    clauses.push(Clause { head, needs })?;
    Ok(())
}

/// Adds the clauses of the imports among so many files.
fn push_imports(
    alloc: Global,
    clauses: &mut Vec<Clause>,
    count: usize,
    imports: &[Import],
) -> Result<(), AllocError>
    requires { count < 2 ^ 32 }
    ensures { (grammar : Grammar) → length grammar.files ≡ count → grammar.imports ≡ imports.now
        → Covers grammar count [] clauses.old.items
        → OnOk result (Covers grammar count imports.now clauses.new.items) }
{
    for import in imports {
        push_import(alloc, clauses, count, import)?;
    }
    Ok(())
}

/// The clauses of a grammar with its imports.
fn clauses_of(alloc: Global, grammar: &WithImports) -> Result<Vec<Clause>, AllocError>
    requires { length grammar.now.files < 2 ^ 32 }
    ensures { IfOk result (λ clauses. Covers grammar.now (length grammar.now.files) grammar.now.imports clauses.items) }
{
    let files = grammar.files.as_slice();
    let mut clauses = Vec::new(alloc);
    push_owns(alloc, &mut clauses, files)?;
    push_imports(alloc, &mut clauses, files.len(), grammar.imports.as_slice())?;
    Ok(clauses)
}

/// Of each file whether its grammar has a mode beside the default one, itself or by what it imports.
pub fn with_modes(alloc: Global, grammar: &WithImports) -> Result<Vec<bool>, AllocError>
    ensures { IfOk result (λ modes. Tells modes.items (HasMode grammar.now)) }
{
    let count = grammar.files.len();
    if count > u32::MAX as usize {
        return Err(AllocError);
    }
    let clauses = clauses_of(alloc, grammar)?;
    let modes = consequences(alloc, count as u32, clauses.as_slice())?;
    Ok(modes)
}
