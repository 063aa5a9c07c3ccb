// From a grammar to its vocabulary.
ghost use Rattle.std.specs.Prelude.{◌≡◌, IfOk, map, option_map};
ghost use Rattle.g4_vocab.specs.Answers.{GivesTypes, GivesVocabulary, IsMadeOf};
ghost use Rattle.g4_vocab.specs.Numbering.{first_own_literal};

use crate::fault::{MOST_RULES, NumberFault};
use crate::halves::halves_of;
use crate::kinds::{gaps_of, types_without};
use crate::named::{Named, named_in};
use crate::own::own_literals;
use crate::references::references_of;
use crate::types::with_tokens;
use crate::vocabulary::Vocabulary;
use crate::wanted::wanted_in;
use crate::wholes::Wholes;
use g4_source::{Literal, Source};
use g4_token_file::TokenTable;
use std::alloc::{AllocError, Global};
use std::collections::BTreeSet;

/// The vocabulary of these lexer rules, literals that have tokens of their own, and types.
fn vocabulary_of<'a>(
    alloc: Global,
    wholes: Wholes<'a>,
    own: Vec<&'a Literal>,
    types: TokenTable,
) -> Result<Vocabulary<'a>, AllocError>
    ensures { IfOk result (IsMadeOf (map (λ r. r.now) wholes.entry.rules.items) (map (λ l. l.now) own.entry.items) types) }
{
    let gaps = gaps_of(alloc, &types)?;
    let all = types_without(alloc, &types, gaps.as_slice(), BTreeSet::new(alloc))?;
    Ok(Vocabulary {
        wholes,
        own,
        types,
        gaps,
        all,
    })
}

/// The vocabulary of a grammar of these lexer rules that names these tokens, whose types this table begins.
fn numbered<'a>(
    alloc: Global,
    table: TokenTable,
    wholes: Wholes<'a>,
    named: &Named<'a>,
) -> Result<Vocabulary<'a>, NumberFault>
    ensures { GivesTypes table (map (λ r. r.now) wholes.entry.rules.items) named.now result }
{
    let own = own_literals(alloc, &wholes, named.tokens.as_slice())?;
    let wanted = wanted_in(alloc, &wholes, own.as_slice(), named)?;
    let types = with_tokens(alloc, table, wanted.as_slice())?;
    let vocabulary = vocabulary_of(alloc, wholes, own, types)?;
    Ok(vocabulary)
}

/// The vocabulary of a grammar, of the rules of all its modes and the tokens that it names. Its types begin with those of the table.
///
/// # Errors
/// More than 4,096 rules, then more than 4,096 types, or no memory.
pub fn number(
    alloc: Global,
    table: TokenTable,
    source: &Source,
) -> Result<Vocabulary<'_>, NumberFault>
    ensures { GivesVocabulary table source.now result }
{
    let rules = source.rules.as_slice();
    if rules.len() > MOST_RULES {
        return Err(NumberFault::Rules);
    }
    let halves = halves_of(alloc, rules)?;
    let named = named_in(alloc, source, halves.parsers.as_slice())?;
    let wholes = Wholes::new(alloc, halves.lexers)?;
    let vocabulary = numbered(alloc, table, wholes, &named)?;
    Ok(vocabulary)
}

/// The first literal of the parser rules, in order of the text, that names no lexer rule's token.
///
/// # Errors
/// No memory.
pub fn first_own_literal(alloc: Global, source: &Source) -> Result<Option<&Literal>, AllocError>
    ensures { IfOk result (λ found. option_map (λ l. l.now) found ≡ first_own_literal source.now) }
{
    let halves = halves_of(alloc, source.rules.as_slice())?;
    let tokens = references_of(alloc, halves.parsers.as_slice())?;
    let wholes = Wholes::new(alloc, halves.lexers)?;
    let own = own_literals(alloc, &wholes, tokens.as_slice())?;
    Ok(own.first().copied())
}
