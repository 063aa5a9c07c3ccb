// The literals of lexer rules, which may be bad.
ghost use Rattle.std.specs.Prelude.{◌≡◌, IfOk};
ghost use Rattle.g4_grammar_tokens.specs.declared.token.Kind.TheVariants as kinds;
ghost use Rattle.g4_syntax.specs.Notation.{one};
ghost use Rattle.g4_cursor.specs.Progress.{bytes_ahead, Moves};
ghost use Rattle.g4_cursor.specs.Sets.{character_of, goes_on_bad, is_backward, lone};
ghost use Rattle.g4_cursor.specs.Taken.{IsTaken};
ghost use Rattle.g4_productions.specs.Answering.{bad_literal_next, literal_terminal};

use g4_cursor::{Cursor, Taken, characters_of};
use g4_grammar_tokens::{Kind, literal_characters};
use std::alloc::{AllocError, Global};

/// The one of the characters, if there is just one.
fn lone(characters: &[char]) -> Option<char>
    ensures { result ≡ lone characters.now }
{
    match characters {
        [character] => Some(*character),
        _ => None,
    }
}

/// The character for which a literal with this text stands, if it is just one.
fn character_of(alloc: Global, text: &str) -> Result<Option<char>, AllocError>
    ensures { IfOk result (λ character. character ≡ character_of text.now) }
{
    let written = characters_of(alloc, text)?;
    let stands_for = literal_characters(alloc, &written)?;
    Ok(lone(stands_for.as_slice()))
}

/// Whether the second of two characters is less than the first, or one of them is none.
fn is_backward(first: Option<char>, last: Option<char>) -> bool
    ensures { result ≡ is_backward first last }
{
    match first {
        Some(first) => match last {
            Some(last) => last < first,
            None => true,
        },
        None => true,
    }
}

/// Whether a bad range begins with the literal that is next and stands for this character, if for just one.
fn begins_bad_range(cursor: &Cursor<'_>, first: Option<char>) -> Result<bool, AllocError>
    ensures { IfOk result (λ bad. bad ≡ goes_on_bad first (bytes_ahead 1 kinds.DoubleDot cursor.now)
        (bytes_ahead 2 kinds.Literal cursor.now)) }
{
    let Some(_) = cursor.text_ahead(1, Kind::DoubleDot) else {
        return Ok(false);
    };
    let Some(text) = cursor.text_ahead(2, Kind::Literal) else {
        return Ok(first.is_none());
    };
    let last = character_of(cursor.alloc(), text)?;
    Ok(is_backward(first, last))
}

/// Whether the next token begins a bad range, or under `~` is a literal that is no character.
fn literal_is_bad(cursor: &Cursor<'_>, excluded: bool) -> Result<bool, AllocError>
    ensures { IfOk result (λ bad. bad ≡ bad_literal_next excluded cursor.now) }
{
    let Some(text) = cursor.text_ahead(0, Kind::Literal) else {
        return Ok(false);
    };
    let character = character_of(cursor.alloc(), text)?;
    if excluded && character.is_none() {
        return Ok(true);
    }
    let bad = begins_bad_range(cursor, character)?;
    Ok(bad)
}

/// Takes a literal of a lexer rule, which is under `~` or not, unless it is bad.
pub(crate) fn take_literal<'a>(
    cursor: &mut Cursor<'a>,
    excluded: bool,
) -> Result<Taken<'a>, AllocError>
    ensures { IfOk result (λ taken. Moves {x = one (literal_terminal excluded)} (IsTaken taken) cursor.old cursor.new) }
{
    if literal_is_bad(cursor, excluded)? {
        return Ok(cursor.refuse());
    }
    Ok(cursor.take(Kind::Literal))
}
