// The characters that literals represent.
ghost use Rattle.std.specs.Prelude.{◌≡◌, ◌≤◌, length, IfOk, IfSome};
ghost use Rattle.g4_grammar_tokens.specs.Spelling.{meant, escaped, spelled, literal_spelling, spelling_from};

use g4_base::Sequence;
use g4_chars::{Context, Meaning, read_escape};
use std::alloc::{AllocError, Global};

/// A character that is spelled, and how many characters after the first belong to it.
#[derive(Clone, Copy)]
pub struct SpelledCharacter {
    pub character: char,
    pub more: usize,
}

fn meant(meaning: Meaning) -> Option<char>
    ensures { result ≡ meant meaning }
{
    match meaning {
        Meaning::Character(c) => Some(c),
        Meaning::Property { .. } => None,
    }
}

fn escaped(rest: &[char]) -> Option<SpelledCharacter>
    ensures value { result ≡ escaped rest.now }
    ensures within { IfSome result (λ s. s.more ≤ length rest.now) }
{
    let escape = read_escape(Context::Literal, rest)?;
    let character = meant(escape.meaning)?;
    Some(SpelledCharacter {
        character,
        more: escape.taken,
    })
}

fn spelled(c: char, rest: &[char]) -> Option<SpelledCharacter>
    ensures value { result ≡ spelled c rest.now }
    ensures within { IfSome result (λ s. s.more ≤ length rest.now) }
{
    if c == '\'' {
        None
    } else if c == '\\' {
        escaped(rest)
    } else {
        Some(SpelledCharacter {
            character: c,
            more: 0,
        })
    }
}

/// What a text spells up to the quote that closes, or a bad escape.
fn spelling(alloc: Global, text: &[char]) -> Result<Sequence<char>, AllocError>
    ensures { IfOk result (λ s. s ≡ spelling_from 0 text.now) }
{
    let mut characters = Vec::new(alloc);
    let mut at = 0;
    while at < text.len() {
        let Some(found) = spelled(text[at], &text[at + 1..]) else {
            break;
        };
        characters.push(found.character)?;
        at += 1 + found.more;
    }
    Ok(Sequence::new(characters))
}

/// The characters that a literal represents, given its text with its quotes; for a text that is no literal, those up to
/// what makes it none.
///
/// # Errors
/// Memory runs out.
pub fn literal_characters(alloc: Global, text: &[char]) -> Result<Sequence<char>, AllocError>
    ensures { IfOk result (λ s. s ≡ literal_spelling text.now) }
{
    let rest = match text {
        [_, rest @ ..] => rest,
        [] => text,
    };
    spelling(alloc, rest)
}
