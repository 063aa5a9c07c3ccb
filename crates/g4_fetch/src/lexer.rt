// The grammar that is the vocabulary of a parser grammar is fetched.
ghost use Rattle.std.specs.Prelude.{◌≡◌, ◌<◌, None, Some, IfOk, IfSome, length, slice_get};
ghost use Rattle.g4_fetch.specs.Closures.{GivesOrHaltsAfter, IsWhole, number_of};
ghost use Rattle.g4_fetch.specs.Counting.{Counts};
ghost use Rattle.g4_fetch.specs.Fetching.{FetchesFile, FetchesVocabulary, HasLexer, known_table, lexer_number};
ghost use Rattle.g4_fetch.specs.Files.{Files};
ghost use Rattle.g4_source.specs.Blocks.{HaveAlternatives};

use crate::closure::{GrammarFile, WithImports};
use crate::fetching::fetch_more;
use crate::reached::Reached;
use crate::reading::read_file;
use crate::stop::Halt;
use crate::vocabulary::{lexer_file, lexer_table_file, table_file};
use g4_base::Text;
use g4_ports::Shelf;
use g4_source::GrammarKind;
use std::alloc::{AllocError, Global};

/// All that is fetched but the numbers in a file of tokens.
#[derive(Drop)]
pub struct WithLexer {
    /// The grammar with all that it imports; after these the grammar that a parser grammar names, and what that imports.
    pub grammar: WithImports,
    /// The number of the lexer grammar that a parser grammar names.
    pub lexer: Option<usize>,
    /// The name of the file of tokens, if one is named.
    pub table: Option<Text>,
}

/// The number of a file, if its grammar is a lexer grammar.
fn lexer_number(kind: GrammarKind, number: usize) -> Option<usize>
    ensures { result ≡ lexer_number kind number }
{
    match kind {
        GrammarKind::Lexer => Some(number),
        GrammarKind::Combined => None,
        GrammarKind::Parser => None,
    }
}

/// The file of tokens of the grammar with this number, if it is a lexer grammar.
fn known_table(
    alloc: Global,
    prefix: &str,
    files: &[GrammarFile],
    number: usize,
) -> Result<Option<Text>, AllocError>
    ensures { IfOk result (λ table. table ≡ known_table prefix.now (slice_get files.now number)) }
{
    match files.get(number) {
        None => Ok(None),
        Some(known) => lexer_table_file(alloc, prefix, &known.source),
    }
}

/// After what is reached, the grammar of this file with what it imports.
fn fetch_after<S: Shelf>(
    alloc: Global,
    shelf: &mut S,
    prefix: &str,
    reached: Reached,
    name: Text,
) -> Result<WithLexer, Halt>
    requires { number_of reached name ≡ None }
    ensures keeps { S.told shelf.new ≡ S.told shelf.old }
    ensures content { (files : Files) → S.told shelf.old ≡ Some files
        → GivesOrHaltsAfter (FetchesFile files prefix.now reached name) result }
    ensures whole { IfOk result (λ fetched. IsWhole fetched.grammar) }
    ensures lexer { IfOk result HasLexer }
    ensures counts { Counts (S.faults shelf.old) (S.faults shelf.new) (S.misses shelf.old) (S.misses shelf.new) result }
{
    let source = read_file(alloc, shelf, name.as_str())?;
    let table = lexer_table_file(alloc, prefix, &source)?;
    let lexer = lexer_number(source.kind, reached.count());
    let more = fetch_more(alloc, shelf, prefix, reached, GrammarFile { name, source })?;
    Ok(WithLexer {
        grammar: more.finish(),
        lexer,
        table,
    })
}

/// The grammar of this file after what is reached, unless it is there.
fn fetch_file<S: Shelf>(
    alloc: Global,
    shelf: &mut S,
    prefix: &str,
    reached: Reached,
    name: Text,
) -> Result<WithLexer, Halt>
    ensures keeps { S.told shelf.new ≡ S.told shelf.old }
    ensures content { (files : Files) → S.told shelf.old ≡ Some files
        → GivesOrHaltsAfter (FetchesFile files prefix.now reached name) result }
    ensures whole { IfOk result (λ fetched. IsWhole fetched.grammar) }
    ensures lexer { IfOk result HasLexer }
    ensures counts { Counts (S.faults shelf.old) (S.faults shelf.new) (S.misses shelf.old) (S.misses shelf.new) result }
{
    let Some(number) = reached.number_of(name.as_str()) else {
        return fetch_after(alloc, shelf, prefix, reached, name);
    };
    let table = known_table(alloc, prefix, reached.files(), number)?;
    Ok(WithLexer {
        grammar: reached.finish(),
        lexer: None,
        table,
    })
}

/// A grammar with all that it imports, and with the grammar that is its vocabulary, if it is a parser grammar.
pub fn fetch_vocabulary<S: Shelf>(
    alloc: Global,
    shelf: &mut S,
    prefix: &str,
    reached: Reached,
) -> Result<WithLexer, Halt>
    ensures keeps { S.told shelf.new ≡ S.told shelf.old }
    ensures content { (files : Files) → S.told shelf.old ≡ Some files
        → GivesOrHaltsAfter (FetchesVocabulary files prefix.now reached) result }
    ensures whole { IfOk result (λ fetched. IsWhole fetched.grammar) }
    ensures lexer { IfOk result HasLexer }
    ensures counts { Counts (S.faults shelf.old) (S.faults shelf.new) (S.misses shelf.old) (S.misses shelf.new) result }
{
    let main = reached.main();
    if let Some(name) = lexer_file(alloc, prefix, main)? {
        return fetch_file(alloc, shelf, prefix, reached, name);
    }
    let table = table_file(alloc, prefix, main)?;
    Ok(WithLexer {
        grammar: reached.finish(),
        lexer: None,
        table,
    })
}
