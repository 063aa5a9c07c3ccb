// What grammars import is fetched.
ghost use Rattle.std.specs.Prelude.{◌≡◌, ◌+◌, ◌<◌, ◌≤◌, ◌^◌, ℕ, List, None, Some, Result, IfOk, OnOk, length};
ghost use Rattle.g4_fetch.specs.Closures.{FetchesImports, FetchesMore, GivesOrHaltsAfter, Halted, number_of};
ghost use Rattle.g4_fetch.specs.Counting.{Counts};
ghost use Rattle.g4_fetch.specs.Files.{Files};
ghost use Rattle.g4_fetch.specs.Tasks.{GoesOn, IsFetched, IsMissing, IsNext};
ghost use Rattle.g4_fetch.specs.declared.closure.WithImports.{WithImports as Grammar};
ghost use Rattle.g4_source.specs.Blocks.{HaveAlternatives};

use crate::closure::{GrammarFile, Import};
use crate::reached::{Missing, Reached};
use crate::reading::read_file;
use crate::stop::Halt;
use crate::task::{Task, push_imports, push_lexer_imports};
use g4_ports::Shelf;
use std::alloc::{AllocError, Global};

/// What is reached so far, and what is still to do, the next at the end.
#[derive(Drop)]
struct Fetching {
    reached: Reached,
    tasks: Vec<Task>,
}

impl Fetching {
    /// All is to do.
    fn new(alloc: Global, main: GrammarFile) -> Result<Self, AllocError>
        requires { HaveAlternatives main.source }
        ensures { IfOk result (λ fetching. (files : Files) (prefix : List ℕ) (end : Result Grammar Halted)
            → GoesOn files prefix fetching end → FetchesImports files prefix main end) }
    {
        let mut tasks = Vec::new(alloc);
        push_imports(alloc, &mut tasks, 0, &main.source)?;
        let reached = Reached::new(alloc, main)?;
        Ok(Fetching { reached, tasks })
    }

    /// After what is reached, a grammar is to do, with what it imports if it is a lexer grammar.
    fn after(alloc: Global, reached: Reached, file: GrammarFile) -> Result<Self, AllocError>
        requires none { number_of reached file.name ≡ None }
        requires full { HaveAlternatives file.source }
        ensures content { IfOk result (λ fetching. (files : Files) (prefix : List ℕ) (end : Result Grammar Halted)
            → GoesOn files prefix fetching end → FetchesMore files prefix reached file end) }
        ensures grows { IfOk result (λ fetching. length fetching.reached.files ≡ length reached.files + 1) }
    {
        let mut tasks = Vec::new(alloc);
        push_lexer_imports(alloc, &mut tasks, reached.count(), &file.source)?;
        let reached = reached.with_file(alloc, file.name, file.source)?;
        Ok(Fetching { reached, tasks })
    }

    /// Carries out tasks up to the first whose grammar is missing.
    fn next_missing(&mut self, alloc: Global, prefix: &str) -> Result<Option<Missing>, AllocError>
        ensures { IfOk result (λ missing. IsNext prefix.now self.old self.new missing) }
    {
        while let Some(task) = self.tasks.pop() {
            let missing = self.reached.carry_out(alloc, prefix, task)?;
            if missing.is_some() {
                return Ok(missing);
            }
        }
        Ok(None)
    }

    /// With a grammar that was missing, which is fetched. Its imports are the next tasks.
    fn fetch<S: Shelf>(
        self,
        alloc: Global,
        shelf: &mut S,
        prefix: &str,
        missing: Missing,
    ) -> Result<Self, Halt>
        requires { IsMissing prefix.now self.reached missing }
        ensures keeps { S.told shelf.new ≡ S.told shelf.old }
        ensures content { (files : Files) → S.told shelf.old ≡ Some files → IsFetched files prefix.now self missing result }
        ensures counts { Counts (S.faults shelf.old) (S.faults shelf.new) (S.misses shelf.old) (S.misses shelf.new) result }
        ensures grows { IfOk result (λ more. length more.reached.files ≡ length self.reached.files + 1) }
        ensures countable { OnOk result (length self.reached.files < 2 ^ 64) }
    {
        let Missing {
            importer,
            name,
            file,
        } = missing;
        let source = read_file(alloc, shelf, file.as_str())?;
        let Fetching { reached, mut tasks } = self;
        let imported = reached.count();
        tasks.push(Task::Test(Import {
            importer,
            imported,
            name,
        }))?;
        push_imports(alloc, &mut tasks, imported, &source)?;
        let reached = reached.with_file(alloc, file, source)?;
        Ok(Fetching { reached, tasks })
    }

    /// Carries out all that is to do.
    fn finish<S: Shelf>(self, alloc: Global, shelf: &mut S, prefix: &str) -> Result<Reached, Halt>
        ensures keeps { S.told shelf.new ≡ S.told shelf.old }
        ensures content { (files : Files) → S.told shelf.old ≡ Some files → GivesOrHaltsAfter (GoesOn files prefix.now self) result }
        ensures counts { Counts (S.faults shelf.old) (S.faults shelf.new) (S.misses shelf.old) (S.misses shelf.new) result }
        ensures grows { IfOk result (λ reached. length self.reached.files ≤ length reached.files) }
    {
        let mut fetching = self;
        while let Some(missing) = fetching.next_missing(alloc, prefix)? {
            fetching = fetching.fetch(alloc, shelf, prefix, missing)?;
        }
        Ok(fetching.reached)
    }
}

/// A grammar with all that it imports.
pub fn fetch_imports<S: Shelf>(
    alloc: Global,
    shelf: &mut S,
    prefix: &str,
    main: GrammarFile,
) -> Result<Reached, Halt>
    requires { HaveAlternatives main.source }
    ensures keeps { S.told shelf.new ≡ S.told shelf.old }
    ensures content { (files : Files) → S.told shelf.old ≡ Some files
        → GivesOrHaltsAfter (FetchesImports files prefix.now main) result }
    ensures counts { Counts (S.faults shelf.old) (S.faults shelf.new) (S.misses shelf.old) (S.misses shelf.new) result }
{
    let fetching = Fetching::new(alloc, main)?;
    fetching.finish(alloc, shelf, prefix)
}

/// A grammar after all that is reached, with what it imports if it is a lexer grammar.
pub fn fetch_more<S: Shelf>(
    alloc: Global,
    shelf: &mut S,
    prefix: &str,
    reached: Reached,
    file: GrammarFile,
) -> Result<Reached, Halt>
    requires none { number_of reached file.name ≡ None }
    requires full { HaveAlternatives file.source }
    ensures keeps { S.told shelf.new ≡ S.told shelf.old }
    ensures content { (files : Files) → S.told shelf.old ≡ Some files
        → GivesOrHaltsAfter (FetchesMore files prefix.now reached file) result }
    ensures counts { Counts (S.faults shelf.old) (S.faults shelf.new) (S.misses shelf.old) (S.misses shelf.new) result }
    ensures grows { IfOk result (λ more. length reached.files < length more.files) }
{
    let fetching = Fetching::after(alloc, reached, file)?;
    fetching.finish(alloc, shelf, prefix)
}
