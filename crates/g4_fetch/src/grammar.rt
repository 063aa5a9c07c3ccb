// A grammar is fetched with all that it imports and with its vocabulary.
ghost use Rattle.std.specs.Prelude.{◌≡◌, ℕ, IfOk, List, Option, Some, option_map};
ghost use Rattle.g4_fetch.specs.Counting.{Counts};
ghost use Rattle.g4_fetch.specs.Closures.{FetchesGrammar, GivesOrHaltsAfter, IsWhole};
ghost use Rattle.g4_fetch.specs.Fetching.{FetchesAll, IsLater};
ghost use Rattle.g4_fetch.specs.Files.{Files};
ghost use Rattle.g4_fetch.specs.Names.{prefix_of};
ghost use Rattle.g4_fetch.specs.Reading.{AfterFetches, GivesOrHalts};

use crate::closure::{Fetched, GrammarFile};
use crate::fetching::fetch_imports;
use crate::lexer::fetch_vocabulary;
use crate::names::prefix_of;
use crate::reached::Reached;
use crate::reading::read_file;
use crate::stop::Halt;
use crate::tables::read_table;
use g4_base::Text;
use g4_ports::Shelf;
use std::alloc::Global;

/// The grammar in the file of this name, with all that it imports.
fn fetch_with_imports<S: Shelf>(
    alloc: Global,
    shelf: &mut S,
    prefix: &str,
    name: &str,
) -> Result<Reached, Halt>
    ensures keeps { S.told shelf.new ≡ S.told shelf.old }
    ensures content { (files : Files) (library : Option (List ℕ)) → S.told shelf.old ≡ Some files → prefix.now ≡ prefix_of library name.now
        → GivesOrHaltsAfter (FetchesGrammar files library name.now) result }
    ensures counts { Counts (S.faults shelf.old) (S.faults shelf.new) (S.misses shelf.old) (S.misses shelf.new) result }
{
    let source = read_file(alloc, shelf, name)?;
    let main = GrammarFile {
        name: Text::copy_of(alloc, name)?,
        source,
    };
    fetch_imports(alloc, shelf, prefix, main)
}

/// The grammar in the file of this name with all that it imports, and with its vocabulary. The grammar `X` is in the file `X.g4`, and the
/// tokens of `X` are in `X.tokens`, in the library where there is one, and else in the folder of the main file. Each grammar is fetched
/// once.
///
/// # Errors
/// The first file that is absent or too large or has a fault, a fetch that failed, or no memory.
pub fn fetch_grammar<S: Shelf>(
    alloc: Global,
    shelf: &mut S,
    library: Option<&str>,
    name: &str,
) -> Result<Fetched, Halt>
    ensures keeps { S.told shelf.new ≡ S.told shelf.old }
    ensures content { (files : Files) → S.told shelf.old ≡ Some files
        → GivesOrHalts (AfterFetches (FetchesAll files (option_map (λ l. l.now) library.entry) name.now)) result }
    ensures whole { IfOk result (λ fetched. IsWhole fetched.grammar) }
    ensures lexer { IfOk result (λ fetched. IsLater fetched.grammar fetched.lexer) }
    ensures counts { Counts (S.faults shelf.old) (S.faults shelf.new) (S.misses shelf.old) (S.misses shelf.new) result }
{
    let prefix = prefix_of(alloc, library, name)?;
    let reached = fetch_with_imports(alloc, shelf, prefix.as_str(), name)?;
    let fetched = fetch_vocabulary(alloc, shelf, prefix.as_str(), reached)?;
    let table = read_table(alloc, shelf, fetched.table)?;
    Ok(Fetched {
        grammar: fetched.grammar,
        lexer: fetched.lexer,
        table,
    })
}
