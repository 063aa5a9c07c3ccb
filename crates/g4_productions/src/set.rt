// The character sets of lexer rules.
ghost use Rattle.std.specs.Prelude.{◌≡◌, IfOk};
ghost use Rattle.std.specs.Str.{chars};
ghost use Rattle.g4_grammar_tokens.specs.Spelling.{literal_spelling};
ghost use Rattle.g4_grammar_tokens.specs.declared.token.Kind.TheVariants.{Literal};
ghost use Rattle.g4_syntax.specs.Notation.{one, a_set, excluded, sign};
ghost use Rattle.g4_cursor.specs.Progress.{Gives, Moves};
ghost use Rattle.g4_cursor.specs.Sets.{content};
ghost use Rattle.g4_productions.specs.Answering.{HasNext};
ghost use Rattle.g4_productions.specs.LexerElements.{set_of_leaf, first_character, character_of};
ghost use Rattle.g4_productions.specs.Members.{set_of};

use crate::literal::take_literal;
use g4_chars::{CharSet, SetFault, read_set};
use g4_cursor::{Cursor, characters_of, literal};
use g4_grammar_tokens::Kind;
use std::alloc::{AllocError, Global};

/// The characters between the brackets of a set.
fn content(text: &[char]) -> &[char]
    ensures { result.now ≡ content text.now }
{
    match text {
        [_, content @ .., _] => content,
        _ => &[],
    }
}

/// The set with this content, unless it is bad.
fn set_of(alloc: Global, content: &[char]) -> Result<Option<CharSet>, AllocError>
    ensures { IfOk result (λ s. s ≡ set_of content.now) }
{
    match read_set(alloc, content) {
        Ok(set) => Ok(Some(set)),
        Err(SetFault::BadEscape) => Ok(None),
        Err(SetFault::BadSet) => Ok(None),
        Err(SetFault::NoMemory) => Err(AllocError),
    }
}

/// The set with this text, unless it is bad.
fn set_of_text(alloc: Global, text: &str) -> Result<Option<CharSet>, AllocError>
    ensures { IfOk result (λ s. s ≡ set_of (content (chars text.now))) }
{
    let characters = characters_of(alloc, text)?;
    let set = set_of(alloc, content(&characters))?;
    Ok(set)
}

/// Takes the set that is next, or stops before it, if it is bad.
fn take_set(cursor: &mut Cursor<'_>, set: Option<CharSet>) -> CharSet
    requires next { HasNext set cursor.old }
    ensures { Moves {x = one a_set} (λ tree. result ≡ set_of_leaf tree) cursor.old cursor.new }
{
    match set {
        Some(set) => {
            cursor.take(Kind::Set);
            set
        }
        None => {
            cursor.refuse();
            CharSet::empty(cursor.alloc())
        }
    }
}

/// A set.
pub(crate) fn set(cursor: &mut Cursor<'_>) -> Result<CharSet, AllocError>
    ensures { Gives {x = one a_set} set_of_leaf cursor.old cursor.new result }
{
    match cursor.text_ahead(0, Kind::Set) {
        Some(text) => {
            let set = set_of_text(cursor.alloc(), text)?;
            Ok(take_set(cursor, set))
        }
        None => {
            cursor.take(Kind::Set);
            Ok(CharSet::empty(cursor.alloc()))
        }
    }
}

/// The first character of a literal.
fn character_with(alloc: Global, text: &str) -> Result<char, AllocError>
    ensures { IfOk result (λ c. c ≡ first_character (literal_spelling (chars text.now))) }
{
    let literal = literal(alloc, text)?;
    Ok(first_character(literal.characters.as_slice()))
}

/// The first character of a literal under `~`.
pub(crate) fn excluded_character(cursor: &mut Cursor<'_>) -> Result<char, AllocError>
    ensures { Gives {x = one excluded} character_of cursor.old cursor.new result }
{
    let taken = take_literal(cursor, true)?;
    let character = character_with(cursor.alloc(), taken.text)?;
    Ok(character)
}

/// The first character of a literal.
pub(crate) fn character(cursor: &mut Cursor<'_>) -> Result<char, AllocError>
    ensures { Gives {x = sign Literal} character_of cursor.old cursor.new result }
{
    let taken = cursor.take(Kind::Literal);
    let character = character_with(cursor.alloc(), taken.text)?;
    Ok(character)
}

/// The first of some characters; there is one wherever it counts.
fn first_character(characters: &[char]) -> char
    ensures { result ≡ first_character characters.now }
{
    match characters {
        [first, ..] => *first,
        [] => '\0',
    }
}
