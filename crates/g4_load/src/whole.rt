// A grammar of several files as one, with what its token types begin with.
ghost use Rattle.std.specs.Prelude.{◌≡◌, IfOk};
ghost use Rattle.g4_load.specs.Stages.{IsAnswerOf};
ghost use Rattle.g4_load.specs.Uniting.{Attaches, Unites, lexer_origin, lexer_source, no_origin, origin_of, united_alone};

use crate::fault::CheckError;
use g4_attach::attach;
use g4_base::{Sequence, Text};
use g4_imports::{Composite, Composites};
use g4_merge::Merged;
use g4_source::{GrammarKind, Source};
use g4_token_file::TokenTable;
use std::alloc::Global;

/// Which file each rule of a grammar is from.
#[derive(Drop)]
pub struct Origin {
    /// Of each rule the number of its file.
    pub files: Sequence<usize>,
    /// The names of the files.
    pub names: Sequence<Text>,
}

/// A grammar of one file or of several, as one.
#[derive(Drop)]
pub struct Whole {
    /// Its rules; those of a parser grammar are before those of its lexer grammar.
    pub source: Source,
    /// Which file its rules are from, but those of a lexer grammar that it names.
    pub own: Origin,
    /// Which file the rules of a lexer grammar that it names are from.
    pub lexer: Origin,
}

/// A grammar as one, and the numbers that its token types begin with.
#[derive(Drop)]
pub struct United {
    pub whole: Whole,
    pub table: TokenTable,
}

/// A grammar, and which file each rule of it is from.
#[derive(Drop)]
struct Parts {
    source: Source,
    origin: Origin,
}

/// A grammar apart from which file each rule of it is from.
fn parts_of(composite: Composite) -> Parts
    ensures source { result.source ≡ composite.merged.source }
    ensures origin { result.origin ≡ origin_of composite }
{
    let Composite { merged, names } = composite;
    let Merged { source, files } = merged;
    Parts {
        source,
        origin: Origin { files, names },
    }
}

/// No rules are from any file.
fn no_origin(alloc: Global) -> Origin
    ensures { result ≡ no_origin }
{
    Origin {
        files: Sequence::new(Vec::new(alloc)),
        names: Sequence::new(Vec::new(alloc)),
    }
}

/// A lexer grammar, if there is one, and which file each rule of it is from.
#[derive(Drop)]
struct LexerParts {
    source: Option<Source>,
    origin: Origin,
}

fn lexer_parts(alloc: Global, lexer: Option<Composite>) -> LexerParts
    ensures source { result.source ≡ lexer_source lexer }
    ensures origin { result.origin ≡ lexer_origin lexer }
{
    match lexer {
        Some(composite) => {
            let Parts { source, origin } = parts_of(composite);
            LexerParts {
                source: Some(source),
                origin,
            }
        }
        None => LexerParts {
            source: None,
            origin: no_origin(alloc),
        },
    }
}

/// A parser grammar with its lexer grammar.
fn attach_lexer(
    alloc: Global,
    table: TokenTable,
    parser: Composite,
    lexer: Option<Composite>,
) -> Result<United, CheckError>
    ensures { IsAnswerOf (Attaches table parser lexer) result }
{
    let Parts {
        source,
        origin: own,
    } = parts_of(parser);
    let lexer = lexer_parts(alloc, lexer);
    let attached = attach(alloc, table, source, lexer.source)?;
    let whole = Whole {
        source: attached.source,
        own,
        lexer: lexer.origin,
    };
    Ok(United {
        whole,
        table: attached.table,
    })
}

/// A grammar as one that names no lexer grammar.
fn alone(alloc: Global, table: TokenTable, grammar: Composite) -> United
    ensures { result ≡ united_alone table grammar }
{
    let Parts {
        source,
        origin: own,
    } = parts_of(grammar);
    let whole = Whole {
        source,
        own,
        lexer: no_origin(alloc),
    };
    United { whole, table }
}

/// A grammar as one: a parser grammar with its lexer grammar.
pub fn unite(alloc: Global, table: TokenTable, composites: Composites) -> Result<United, CheckError>
    ensures { IsAnswerOf (Unites table composites composites.grammar.merged.source.kind) result }
{
    let Composites { grammar, lexer } = composites;
    match grammar.merged.source.kind {
        GrammarKind::Combined => Ok(alone(alloc, table, grammar)),
        GrammarKind::Lexer => Ok(alone(alloc, table, grammar)),
        GrammarKind::Parser => attach_lexer(alloc, table, grammar, lexer),
    }
}
