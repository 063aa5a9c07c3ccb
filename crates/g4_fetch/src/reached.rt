// The files that are reached so far.
ghost use Rattle.std.specs.Prelude.{◌≡◌, ◌<◌, None, Some, IfOk, OnOk, length, slice_get};
ghost use Rattle.g4_fetch.specs.Closures.{IsWhole, alone, number_of, with_file, with_import};
ghost use Rattle.g4_fetch.specs.Tasks.{IsCarriedOut};
ghost use Rattle.g4_source.specs.Blocks.{HaveAlternatives};

use crate::by_name::ByName;
use crate::closure::{GrammarFile, Import, WithImports};
use crate::names::grammar_file;
use crate::task::Task;
use g4_base::{Sequence, Text};
use g4_source::Source;
use std::alloc::{AllocError, Global};
use std::marker::Model;

/// An import whose grammar is not reached yet: the number of the importing grammar, the name that it imports, and that of the file.
#[derive(Drop)]
pub struct Missing {
    pub importer: usize,
    pub name: Text,
    pub file: Text,
}

/// A grammar with the imports that are reached so far, and the numbers of its files by their names.
#[derive(Drop)]
pub struct Reached {
    files: Vec<GrammarFile>,
    imports: Vec<Import>,
    numbers: ByName<usize>,
}

impl Model for Reached {
    ghost use Rattle.std.specs.Coded.{codes};
    ghost use Rattle.g4_source.specs.Marks.{elements_code};
    ghost use Rattle.g4_fetch.specs.Closures.{IsWhole};
    ghost use Rattle.g4_fetch.specs.Reaching.{AreNumbers, reached_of};
    ghost use Rattle.g4_fetch.specs.declared.closure.WithImports.{WithImports};

    ghost Value = { WithImports };

    ghost coded = { Prim.hlevel (codes, elements_code) };

    ghost view = { λ r. reached_of r.files.items r.imports.items };

    ghost invariant = { λ r. AreNumbers r.files.items r.numbers × IsWhole (reached_of r.files.items r.imports.items) };
}

impl Reached {
    /// The grammar alone.
    pub fn new(alloc: Global, main: GrammarFile) -> Result<Self, AllocError>
        requires { HaveAlternatives main.source }
        ensures { IfOk result (λ reached. reached ≡ alone main) }
    {
        let mut numbers = ByName::new(alloc);
        numbers.add(alloc, main.name.as_str(), 0)?;
        let mut files = Vec::new(alloc);
        files.push(main)?;
        Ok(Reached {
            files,
            imports: Vec::new(alloc),
            numbers,
        })
    }

    /// How many files there are.
    pub fn count(&self) -> usize
        ensures count { result ≡ length self.now.files }
        ensures some { 0 < result }
    {
        self.files.len()
    }

    /// The files in order.
    pub fn files(&self) -> &[GrammarFile]
        ensures { result.now ≡ self.now.files }
    {
        self.files.as_slice()
    }

    /// The main grammar.
    pub fn main(&self) -> &Source
        ensures { (main : GrammarFile) × (slice_get self.now.files 0 ≡ Some main) × (result.now ≡ main.source) }
    {
        &self.files[0].source
    }

    /// The number of the file of this name.
    pub fn number_of(&self, name: &str) -> Option<usize>
        ensures { result ≡ number_of self.now name.now }
    {
        self.numbers.get(name).copied()
    }

    /// With one file more.
    pub fn with_file(self, alloc: Global, name: Text, source: Source) -> Result<Self, AllocError>
        requires none { number_of self name ≡ None }
        requires full { HaveAlternatives source }
        ensures { IfOk result (λ reached. reached ≡ with_file self name source) }
    {
        let Reached {
            mut files,
            imports,
            mut numbers,
        } = self;
        numbers.add(alloc, name.as_str(), files.len())?;
        files.push(GrammarFile { name, source })?;
        Ok(Reached {
            files,
            imports,
            numbers,
        })
    }

    /// Adds an import.
    fn add_import(&mut self, import: Import) -> Result<(), AllocError>
        ensures { OnOk result (self.new ≡ with_import self.old import) }
    {
        self.imports.push(import)?;
        Ok(())
    }

    /// The grammar with its imports.
    pub fn finish(self) -> WithImports
        ensures same { result ≡ self }
        ensures whole { IsWhole result }
    {
        let Reached { files, imports, .. } = self;
        WithImports {
            files: Sequence::new(files),
            imports: Sequence::new(imports),
        }
    }

    /// Notes the import, if its grammar is reached.
    fn import_reached(
        &mut self,
        alloc: Global,
        prefix: &str,
        importer: usize,
        name: Text,
    ) -> Result<Option<Missing>, AllocError>
        ensures { IfOk result (λ missing. IsCarriedOut prefix.now (Task.Fetch importer name) self.old self.new missing) }
    {
        let file = grammar_file(alloc, prefix, name.as_str())?;
        let Some(imported) = self.number_of(file.as_str()) else {
            return Ok(Some(Missing {
                importer,
                name,
                file,
            }));
        };
        self.add_import(Import {
            importer,
            imported,
            name,
        })?;
        Ok(None)
    }

    /// Carries out a task, unless its grammar is missing.
    pub fn carry_out(
        &mut self,
        alloc: Global,
        prefix: &str,
        task: Task,
    ) -> Result<Option<Missing>, AllocError>
        ensures { IfOk result (λ missing. IsCarriedOut prefix.now task self.old self.new missing) }
    {
        match task {
            Task::Test(import) => {
                self.add_import(import)?;
                Ok(None)
            }
            Task::Fetch(importer, name) => self.import_reached(alloc, prefix, importer, name),
        }
    }
}
