// From the files of a grammar to its rules, numbered and checked.
ghost use Rattle.std.specs.Prelude.{◌≡◌, IfOk, List, Some, option_map};
ghost use Rattle.g4_fetch.specs.Closures.{IsWhole};
ghost use Rattle.g4_fetch.specs.Fetching.{IsLater};
ghost use Rattle.g4_fetch.specs.Files.{Files};
ghost use Rattle.g4_source.specs.Blocks.{HaveAlternatives};
ghost use Rattle.g4_token_file.specs.declared.entry.TokenEntry.{TokenEntry};
ghost use Rattle.g4_load.specs.Counting.{Counts};
ghost use Rattle.g4_load.specs.Loading.{AreFull, Composes, GivesNumbered, IsLoaded, IsNumbered, IsReady, Loads, LoadsUnited, Merges, Reads};
ghost use Rattle.g4_load.specs.Stages.{AfterFetches, GivesOrHalts, GivesOrStops};

use crate::fault::CheckError;
use crate::locating::located;
use crate::stop::{Halt, fault_of, halt_of_fetch};
use crate::whole::{United, unite};
use g4_base::{Sequence, Text};
use g4_checks::{check, predicates_of};
use g4_fetch::{Fetched, WithImports, fetch_grammar};
use g4_grammar::{ParserRules, TokenTypes};
use g4_imports::{Composites, integrate};
use g4_lexer_rules::{CheckedLexer, checked_lexer_of};
use g4_ports::Shelf;
use g4_preds::Predicate;
use g4_resolve::resolve;
use g4_source::Source;
use g4_token_file::TokenTable;
use g4_vocab::number;
use std::alloc::{AllocError, Global};

/// A grammar without fault.
#[derive(Drop)]
pub struct Loaded {
    /// The parser rules in order of the text, which count from 1, with what their atoms are in a network.
    pub rules: ParserRules,
    /// The predicates of the parser rules, by their numbers.
    pub predicates: Sequence<Predicate>,
    /// What is shown of each token type from 1 on.
    pub shown: Sequence<Text>,
    /// The rules of the lexer with their token types, and what their commands name.
    pub lexer: CheckedLexer,
}

/// The parser rules of a grammar without fault, their predicates, and its token types.
#[derive(Drop)]
struct Numbered {
    rules: ParserRules,
    predicates: Sequence<Predicate>,
    types: TokenTypes,
}

/// The grammar in the file of this name, with all that it imports and with its vocabulary.
fn read<S: Shelf>(
    alloc: Global,
    shelf: &mut S,
    library: Option<&str>,
    name: &str,
) -> Result<Fetched, Halt>
    ensures keeps { S.told shelf.new ≡ S.told shelf.old }
    ensures content { (files : Files) → S.told shelf.old ≡ Some files
        → GivesOrHalts (AfterFetches (Reads files (option_map (λ l. l.now) library.entry) name.now)) result }
    ensures whole { IfOk result (λ fetched. IsWhole fetched.grammar) }
    ensures lexer { IfOk result (λ fetched. IsLater fetched.grammar fetched.lexer) }
    ensures counts { Counts ⊥ (S.faults shelf.old) (S.faults shelf.new) (S.misses shelf.old) (S.misses shelf.new) result }
{
    match fetch_grammar(alloc, shelf, library, name) {
        Ok(fetched) => Ok(fetched),
        Err(halt) => Err(halt_of_fetch(alloc, name, halt)),
    }
}

/// A grammar with all that it imports as one, and its lexer grammar the same.
fn compose(alloc: Global, grammar: WithImports, lexer: Option<usize>) -> Result<Composites, Halt>
    requires whole { IsWhole grammar }
    requires later { IsLater grammar lexer }
    ensures composes { GivesOrStops (Composes grammar lexer) result }
    ensures full { IfOk result AreFull }
{
    let composites = integrate(alloc, grammar, lexer)?;
    Ok(composites)
}

/// A grammar with all that it imports, and with its lexer grammar, as one. The main file has this name.
fn merge(alloc: Global, name: &str, fetched: Fetched) -> Result<United, Halt>
    requires whole { IsWhole fetched.grammar }
    requires later { IsLater fetched.grammar fetched.lexer }
    ensures merges { GivesOrStops (Merges name.now fetched) result }
    ensures full { IfOk result (λ united. HaveAlternatives united.whole.source) }
{
    let Fetched {
        grammar,
        lexer,
        table,
    } = fetched;
    let composites = compose(alloc, grammar, lexer)?;
    match unite(alloc, table, composites) {
        Ok(united) => Ok(united),
        Err(CheckError::Fault(fault)) => Err(Halt::Stop(fault_of(alloc, name, fault)?)),
        Err(CheckError::NoMemory) => Err(Halt::NoMemory),
    }
}

/// The parser rules, their predicates and the token types of a grammar, which begin with this table, where it has no fault.
fn number_and_check(
    alloc: Global,
    table: TokenTable,
    source: &Source,
) -> Result<Numbered, CheckError>
    requires full { HaveAlternatives source.now }
    ensures numbered { GivesNumbered table source.now result }
    ensures ready { IfOk result (IsReady source.now) }
{
    let vocabulary = number(alloc, table, source)?;
    check(alloc, source)?;
    let rules = resolve(alloc, source, &vocabulary)?;
    let predicates = predicates_of(alloc, source)?;
    let types = vocabulary.token_types(alloc)?;
    Ok(Numbered {
        rules,
        predicates,
        types,
    })
}

/// The grammar of a source without fault.
fn with_lexer(alloc: Global, source: Source, numbered: Numbered) -> Result<Loaded, AllocError>
    requires full { HaveAlternatives source }
    requires ready { IsReady source numbered }
    ensures { IfOk result (λ loaded. (table : List TokenEntry) → IsNumbered table source numbered → IsLoaded table source loaded) }
{
    let Numbered {
        rules,
        predicates,
        types,
    } = numbered;
    let lexer = checked_lexer_of(alloc, source, types.names, types.literals)?;
    Ok(Loaded {
        rules,
        predicates,
        shown: types.shown,
        lexer,
    })
}

/// The grammar in the main file of this name, as one, where its rules have no fault.
fn load_united(alloc: Global, name: &str, united: United) -> Result<Loaded, Halt>
    requires full { HaveAlternatives united.whole.source }
    ensures { GivesOrStops (LoadsUnited name.now united) result }
{
    let United { whole, table } = united;
    match number_and_check(alloc, table, &whole.source) {
        Ok(numbered) => {
            let loaded = with_lexer(alloc, whole.source, numbered)?;
            Ok(loaded)
        }
        Err(CheckError::Fault(fault)) => Err(Halt::Stop(located(alloc, name, &whole, fault)?)),
        Err(CheckError::NoMemory) => Err(Halt::NoMemory),
    }
}

/// The grammar in the file of this name, with all that it imports and with its vocabulary, whose rules are checked. The grammar `X` is in
/// the file `X.g4`, and the tokens of `X` are in `X.tokens`, in the library, or, where there is none, in the folder of the main file.
///
/// # Errors
/// The first file that is absent or too large, the first fault of the grammar, a fetch that failed, or no memory.
pub fn load<S: Shelf>(
    alloc: Global,
    shelf: &mut S,
    library: Option<&str>,
    name: &str,
) -> Result<Loaded, Halt>
    ensures keeps { S.told shelf.new ≡ S.told shelf.old }
    ensures content { (files : Files) → S.told shelf.old ≡ Some files
        → GivesOrHalts (AfterFetches (Loads files (option_map (λ l. l.now) library.entry) name.now)) result }
    ensures counts { Counts ⊥ (S.faults shelf.old) (S.faults shelf.new) (S.misses shelf.old) (S.misses shelf.new) result }
{
    let fetched = read(alloc, shelf, library, name)?;
    let united = merge(alloc, name, fetched)?;
    let loaded = load_united(alloc, name, united)?;
    Ok(loaded)
}
