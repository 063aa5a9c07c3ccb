// How the tokens of a text are spelled.
ghost use Rattle.std.specs.Prelude.{◌≡◌, IfOk, slice_get};
ghost use Rattle.std.specs.Str.{chars};
ghost use Rattle.g4_grammar_tokens.specs.Spelling.{literal_spelling};
ghost use Rattle.g4_cursor.specs.Texts.{bytes_of, characters_of as characters_in};
ghost use Rattle.g4_cursor.specs.Parts.{IsPart};

use g4_base::Text;
use g4_grammar_tokens::{Token, literal_characters};
use g4_source::Literal;
use std::alloc::{AllocError, Global};

/// The token at the index, if there is one.
pub fn token_at(tokens: &[Token], at: usize) -> Option<Token>
    ensures { result ≡ slice_get tokens.now at }
{
    tokens.get(at).copied()
}

/// The text of a token in place.
pub fn part<'a>(text: &'a str, token: &Token) -> &'a str
    requires part { IsPart text.now token.now }
    ensures { result.now ≡ bytes_of text.now token.now }
{
    &text[token.start..token.end]
}

/// The characters of a text.
pub fn characters_of(alloc: Global, text: &str) -> Result<Vec<char>, AllocError>
    ensures { IfOk result (λ c. c.items ≡ chars text.now) }
{
    let characters = text.chars().collect(alloc)?;
    Ok(characters)
}

/// The characters of a token.
pub fn characters(alloc: Global, text: &str, token: &Token) -> Result<Vec<char>, AllocError>
    requires part { IsPart text.now token.now }
    ensures { IfOk result (λ c. c.items ≡ characters_in text.now token.now) }
{
    let characters = characters_of(alloc, part(text, token))?;
    Ok(characters)
}

/// The literal with this text.
pub fn literal(alloc: Global, text: &str) -> Result<Literal, AllocError>
    ensures { IfOk result (λ l. l ≡ record { characters = literal_spelling (chars text.now); written = text.now }) }
{
    let spelling = characters_of(alloc, text)?;
    let characters = literal_characters(alloc, &spelling)?;
    let written = Text::copy_of(alloc, text)?;
    Ok(Literal {
        characters,
        written,
    })
}
