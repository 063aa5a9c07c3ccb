// What is still to do while imports are fetched.
ghost use Rattle.std.specs.Prelude.{◌≡◌, ◌++◌, OnOk, reverse};
ghost use Rattle.g4_fetch.specs.Tasks.{fetches_of};
ghost use Rattle.g4_fetch.specs.Closures.{imported_by_lexer};
ghost use Rattle.g4_merge.specs.Importing.{imported_by};

use crate::closure::Import;
use g4_base::Text;
use g4_merge::imported_names;
use g4_source::{GrammarKind, Source};
use std::alloc::{AllocError, Global};

/// What is still to do.
#[derive(Drop)]
pub enum Task {
    /// To fetch what the grammar of this number imports by this name, unless that is there.
    Fetch(usize, Text),
    /// To note the import, after those of the imported grammar.
    Test(Import),
}

/// Puts the imports of the grammar of this number before all else that is to do: the next task is the last in place.
pub fn push_imports(
    alloc: Global,
    tasks: &mut Vec<Task>,
    importer: usize,
    source: &Source,
) -> Result<(), AllocError>
    ensures { OnOk result (tasks.new.items ≡ tasks.old.items ++ reverse (fetches_of importer (imported_by source.now))) }
{
    let mut names = imported_names(alloc, source)?;
    while let Some(name) = names.pop() {
        tasks.push(Task::Fetch(importer, Text::copy_of(alloc, name)?))?;
    }
    Ok(())
}

/// Puts the imports of the grammar of this number before all else that is to do, if it is a lexer grammar.
pub fn push_lexer_imports(
    alloc: Global,
    tasks: &mut Vec<Task>,
    importer: usize,
    source: &Source,
) -> Result<(), AllocError>
    ensures { OnOk result (tasks.new.items
        ≡ tasks.old.items ++ reverse (fetches_of importer (imported_by_lexer source.now source.now.kind))) }
{
    match source.kind {
        GrammarKind::Lexer => push_imports(alloc, tasks, importer, source),
        GrammarKind::Combined => Ok(()),
        GrammarKind::Parser => Ok(()),
    }
}
