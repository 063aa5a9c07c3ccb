// The grammar that a grammar is with all that it imports.
ghost use Rattle.std.specs.Prelude.{◌≡◌, ◌<◌, IfOk, OnOk, Some, length, map};
ghost use Rattle.g4_fetch.specs.Closures.{file_names};
ghost use Rattle.g4_fetch.specs.Fetching.{IsLater};
ghost use Rattle.g4_imports.specs.Composites.{AreComposites, AreOfFiles, AreSplit, IsComposite};
ghost use Rattle.g4_imports.specs.Faults.{HasNoFault, IsFault};
ghost use Rattle.g4_source.specs.Refusals.{Answers};

use crate::fault::ImportFault;
use crate::kinds::first_bad_import;
use crate::twice::first_twice;
use g4_base::{Sequence, Text};
use g4_fetch::{GrammarFile, WithImports};
use g4_merge::{Merged, merge};
use g4_source::{Refused, Source};
use std::alloc::{AllocError, Global};

/// A grammar with all that it imports, as one.
#[derive(Drop)]
pub struct Composite {
    /// The grammar, and of each of its rules the number of the file that it is from, counted from 0, which is its own.
    pub merged: Merged,
    /// The names of these files in order.
    pub names: Sequence<Text>,
}

/// Looks for the first fault of the imports.
fn check_imports(alloc: Global, grammar: &WithImports) -> Result<(), Refused<ImportFault>>
    ensures { Answers (λ _. HasNoFault grammar.now) (IsFault grammar.now) result }
{
    if let Some(fault) = first_twice(alloc, grammar.files.as_slice())? {
        return Err(Refused::Fault(fault));
    }
    if let Some(fault) = first_bad_import(alloc, grammar)? {
        return Err(Refused::Fault(fault));
    }
    Ok(())
}

/// The names of files, and their grammars.
#[derive(Drop)]
struct Split {
    names: Vec<Text>,
    sources: Vec<Source>,
}

/// Files apart.
fn split_files(alloc: Global, files: Vec<GrammarFile>) -> Result<Split, AllocError>
    ensures { IfOk result (AreSplit files.items) }
{
    let mut names = Vec::new(alloc);
    let mut sources = Vec::new(alloc);
    for file in files {
        let GrammarFile { name, source } = file;
        names.push(name)?;
        sources.push(source)?;
    }
    Ok(Split { names, sources })
}

/// The files as one grammar, the first being the main one.
fn compose(alloc: Global, files: Vec<GrammarFile>) -> Result<Composite, AllocError>
    requires { 0 < length files.items }
    ensures { IfOk result (IsComposite files.items) }
{
    let Split { names, mut sources } = split_files(alloc, files)?;
    let main = sources.remove(0);
    let merged = merge(alloc, main, sources)?;
    let names = Sequence::new(names);
    Ok(Composite { merged, names })
}

/// A grammar with all that it imports, as one, and its lexer grammar, if there is one, the same.
#[derive(Drop)]
pub struct Composites {
    pub grammar: Composite,
    pub lexer: Option<Composite>,
}

/// The files before a lexer grammar's as one grammar, and that with the others as another.
fn compose_apart(
    alloc: Global,
    mut files: Vec<GrammarFile>,
    lexer: usize,
) -> Result<Composites, AllocError>
    requires some { 0 < lexer }
    requires there { lexer < length files.items }
    ensures { IfOk result (AreComposites files.items (Some lexer)) }
{
    let others = files.split_off(lexer)?;
    let grammar = compose(alloc, files)?;
    let lexer = compose(alloc, others)?;
    Ok(Composites {
        grammar,
        lexer: Some(lexer),
    })
}

/// The files as one grammar, or, where one is that of a lexer grammar, those before it, and that with the others.
fn compose_all(
    alloc: Global,
    grammar: WithImports,
    lexer: Option<usize>,
) -> Result<Composites, AllocError>
    requires some { 0 < length grammar.files }
    requires later { IsLater grammar lexer }
    ensures { IfOk result (AreComposites grammar.files lexer) }
{
    let files = grammar.files.into_vec();
    match lexer {
        Some(number) => compose_apart(alloc, files, number),
        None => {
            let grammar = compose(alloc, files)?;
            Ok(Composites {
                grammar,
                lexer: None,
            })
        }
    }
}

/// A grammar with all that it imports, as one: its rules are its own and then those of the imports, in the order in which these were
/// fetched; of rules with one name the first. Where a lexer grammar has this number, it is another grammar with all that comes after it.
///
/// # Errors
/// The first file that has a rule name twice; or the first import of a kind that cannot be imported there, a grammar's own imports before
/// it; or no memory.
pub fn integrate(
    alloc: Global,
    grammar: WithImports,
    lexer: Option<usize>,
) -> Result<Composites, Refused<ImportFault>>
    requires some { 0 < length grammar.files }
    requires later { IsLater grammar lexer }
    ensures composites { Answers (λ composites. HasNoFault grammar × AreComposites grammar.files lexer composites)
        (IsFault grammar) result }
    ensures rules { IfOk result (λ composites. AreOfFiles grammar.files composites) }
{
    check_imports(alloc, &grammar)?;
    let composites = compose_all(alloc, grammar, lexer)?;
    Ok(composites)
}
