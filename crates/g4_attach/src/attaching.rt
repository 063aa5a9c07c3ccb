// A parser grammar and its lexer grammar as one.
ghost use Rattle.std.specs.Prelude.{◌≡◌, IfOk};
ghost use Rattle.g4_attach.specs.Attaching.{GivesTable, IsAttached, attached_of, lexer_of};

use crate::fault::AttachFault;
use g4_base::{Sequence, Text};
use g4_source::{GrammarKind, Source};
use g4_token_file::TokenTable;
use g4_vocab::{MOST_RULES, NumberFault, first_own_literal, number};
use std::alloc::{AllocError, Global};

/// A parser grammar with its lexer grammar.
#[derive(Drop)]
pub struct Attached {
    /// Both as one grammar: the rules of the parser grammar, then those of the lexer grammar, with its modes. What is before the rules
    /// of both, that of the lexer grammar first.
    pub source: Source,
    /// The token types of the lexer grammar by itself, which those of the whole begin with.
    pub table: TokenTable,
}

/// The rules of a parser grammar before those of a lexer grammar, with what is before the rules of both, and the modes of the latter.
fn joined(parser: Source, lexer: Source) -> Result<Source, AllocError>
    ensures { IfOk result (λ source. source ≡ attached_of parser lexer) }
{
    let mut prequels = lexer.prequels.into_vec();
    prequels.append(&mut parser.prequels.into_vec())?;
    let mut rules = parser.rules.into_vec();
    rules.append(&mut lexer.rules.into_vec())?;
    Ok(Source {
        place: parser.place,
        kind: parser.kind,
        name: parser.name,
        prequels: Sequence::new(prequels),
        rules: Sequence::new(rules),
        modes: lexer.modes,
    })
}

/// The types of a lexer grammar by itself, which begin with those of the table.
fn types_alone(alloc: Global, table: TokenTable, lexer: &Source) -> Result<TokenTable, NumberFault>
    ensures { GivesTable table lexer.now result }
{
    let vocabulary = number(alloc, table, lexer)?;
    Ok(vocabulary.into_table())
}

/// The grammar, if it is a lexer grammar.
fn lexer_of(lexer: Option<Source>) -> Option<Source>
    ensures { result ≡ lexer_of lexer }
{
    match lexer {
        Some(source) => match source.kind {
            GrammarKind::Lexer => Some(source),
            GrammarKind::Combined => None,
            GrammarKind::Parser => None,
        },
        None => None,
    }
}

/// A parser grammar with the lexer grammar that its `tokenVocab` names, both with what they import; and the token types of the lexer
/// grammar, which is numbered by itself, from the numbers of this table.
///
/// # Errors
/// The first of these:
/// - `NotALexer`: no grammar is given, or it is no lexer grammar.
/// - `LiteralWithoutToken`: a literal of the parser rules is not the whole content of exactly one lexer rule of the default mode without
///   `fragment`, whatever the table has.
/// - `Rules`: both have more than 4,096 rules.
/// - `Types`: the lexer grammar by itself has more than 4,096 types.
/// - `NoMemory`: memory runs out.
pub fn attach(
    alloc: Global,
    table: TokenTable,
    parser: Source,
    lexer: Option<Source>,
) -> Result<Attached, AttachFault>
    ensures { IsAttached table parser lexer result }
{
    let Some(lexer) = lexer_of(lexer) else {
        return Err(AttachFault::NotALexer(parser.name));
    };
    let alone = types_alone(alloc, table, &lexer);
    let source = joined(parser, lexer)?;
    if let Some(literal) = first_own_literal(alloc, &source)? {
        let written = Text::copy_of(alloc, literal.written.as_str())?;
        return Err(AttachFault::LiteralWithoutToken(written));
    }
    if source.rules.len() > MOST_RULES {
        return Err(AttachFault::Rules);
    }
    let table = alone?;
    Ok(Attached { source, table })
}
