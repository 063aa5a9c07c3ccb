// What the option `tokenVocab` of a grammar names.
ghost use Rattle.std.specs.Prelude.{◌≡◌, IfOk, option_map};
ghost use Rattle.g4_fetch.specs.Names.{grammar_file, tokens_file};
ghost use Rattle.g4_fetch.specs.Vocabularies.{lexer_file, lexer_table_file, named_by, setting_vocabulary, settings_in, last_some, table_file, vocabulary_of};

use crate::names::{grammar_file, tokens_file};
use g4_base::Text;
use g4_source::{GrammarKind, OptionValue, Prequel, Setting, Source};
use std::alloc::{AllocError, Global};

/// The name that an option has as its value.
fn name_of_value(value: &OptionValue) -> Option<&str>
    ensures { option_map (λ n. n.now) result ≡ named_by value.now }
{
    match value {
        OptionValue::Names(names) => match names.as_slice() {
            [name] => Some(name.as_str()),
            _ => None,
        },
        _ => None,
    }
}

/// The vocabulary that this option names.
fn setting_vocabulary(setting: &Setting) -> Option<&str>
    ensures { option_map (λ n. n.now) result ≡ setting_vocabulary setting.now }
{
    if setting.name.text.as_str() == "tokenVocab" {
        name_of_value(&setting.value)
    } else {
        None
    }
}

/// The last vocabulary that these options name.
fn last_vocabulary(settings: &[Setting]) -> Option<&str>
    ensures { option_map (λ n. n.now) result ≡ last_some setting_vocabulary settings.now }
{
    let mut last = None;
    for setting in settings {
        last = setting_vocabulary(setting).or(last);
    }
    last
}

/// The last vocabulary that is named here.
fn prequel_vocabulary(prequel: &Prequel) -> Option<&str>
    ensures { option_map (λ n. n.now) result ≡ last_some setting_vocabulary (settings_in prequel.now) }
{
    match prequel {
        Prequel::Options(settings) => last_vocabulary(settings.as_slice()),
        Prequel::Import(..) => None,
        Prequel::Tokens(..) => None,
        Prequel::Channels(..) => None,
    }
}

/// The vocabulary of a grammar: the last that its options name.
fn vocabulary_of(source: &Source) -> Option<&str>
    ensures { option_map (λ n. n.now) result ≡ vocabulary_of source.now }
{
    let mut last = None;
    for prequel in source.prequels.as_slice() {
        last = prequel_vocabulary(prequel).or(last);
    }
    last
}

/// The file of tokens that is the vocabulary of a grammar which is no parser grammar.
fn named_table(alloc: Global, prefix: &str, source: &Source) -> Result<Option<Text>, AllocError>
    ensures { IfOk result (λ file. file ≡ option_map (tokens_file prefix.now) (vocabulary_of source.now)) }
{
    match vocabulary_of(source) {
        Some(name) => Ok(Some(tokens_file(alloc, prefix, name)?)),
        None => Ok(None),
    }
}

/// The file of the grammar that is the vocabulary of a parser grammar.
fn named_grammar(alloc: Global, prefix: &str, source: &Source) -> Result<Option<Text>, AllocError>
    ensures { IfOk result (λ file. file ≡ option_map (grammar_file prefix.now) (vocabulary_of source.now)) }
{
    match vocabulary_of(source) {
        Some(name) => Ok(Some(grammar_file(alloc, prefix, name)?)),
        None => Ok(None),
    }
}

/// The file of the grammar that is a grammar's vocabulary, if it is a parser grammar.
pub fn lexer_file(alloc: Global, prefix: &str, source: &Source) -> Result<Option<Text>, AllocError>
    ensures { IfOk result (λ file. file ≡ lexer_file prefix.now source.now source.now.kind) }
{
    match source.kind {
        GrammarKind::Combined => Ok(None),
        GrammarKind::Lexer => Ok(None),
        GrammarKind::Parser => named_grammar(alloc, prefix, source),
    }
}

/// The file of tokens that is a grammar's vocabulary, unless it is a parser grammar.
pub fn table_file(alloc: Global, prefix: &str, source: &Source) -> Result<Option<Text>, AllocError>
    ensures { IfOk result (λ file. file ≡ table_file prefix.now source.now source.now.kind) }
{
    match source.kind {
        GrammarKind::Combined => named_table(alloc, prefix, source),
        GrammarKind::Lexer => named_table(alloc, prefix, source),
        GrammarKind::Parser => Ok(None),
    }
}

/// The file of tokens that is a grammar's vocabulary, if it is a lexer grammar.
pub fn lexer_table_file(
    alloc: Global,
    prefix: &str,
    source: &Source,
) -> Result<Option<Text>, AllocError>
    ensures { IfOk result (λ file. file ≡ lexer_table_file prefix.now source.now source.now.kind) }
{
    match source.kind {
        GrammarKind::Combined => Ok(None),
        GrammarKind::Lexer => named_table(alloc, prefix, source),
        GrammarKind::Parser => Ok(None),
    }
}
