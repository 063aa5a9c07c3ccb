// The pieces of a predicate's text: tokens, and the blanks between them.
ghost use Rattle.std.specs.Prelude.{◌≡◌, ◌+◌, ◌∷◌, length, IfOk, IfSome, encode_utf8_all};
ghost use Rattle.g4_preds.specs.Answers.{Answers};
ghost use Rattle.g4_preds.specs.Tokens.{IsPiece, IsLiteralPiece, IsWithin, name_piece, double_sign, sign};

use crate::character::{begins, is_blank, is_one_to_eight, name_length};
use crate::fault::Fault;
use crate::literal::literal_length;
use crate::token::Token;
use g4_base::Text;
use g4_grammar_tokens::literal_characters;
use std::alloc::{AllocError, Global};
use unicode::properties::is_alphabetic;

/// A piece of a text.
#[derive(Drop)]
pub enum Piece {
    /// One blank.
    Blank,
    /// A token, and how many characters it has after its first.
    Formed(Token, usize),
}

/// The text of a name: its letter and the characters after it.
fn name_text(alloc: Global, letter: char, parts: &[char]) -> Result<Text, AllocError>
    ensures { IfOk result (λ t. t ≡ encode_utf8_all (letter ∷ parts.now)) }
{
    let mut name = String::new(alloc);
    name.push(letter)?;
    for part in parts {
        name.push(*part)?;
    }
    Ok(Text::new(name))
}

fn name_piece(alloc: Global, letter: char, after: &[char]) -> Result<Piece, AllocError>
    ensures value { IfOk result (λ p. p ≡ name_piece letter after.now) }
    ensures within { IfOk result (IsWithin (1 + length after.now)) }
{
    let more = name_length(after);
    let name = name_text(alloc, letter, &after[..more])?;
    Ok(Piece::Formed(Token::Name(name), more))
}

/// The text of these characters.
fn text_of(alloc: Global, characters: &[char]) -> Result<Text, AllocError>
    ensures { IfOk result (λ t. t ≡ encode_utf8_all characters.now) }
{
    let mut text = String::new(alloc);
    for c in characters {
        text.push(*c)?;
    }
    Ok(Text::new(text))
}

/// The literal that the text begins with.
fn literal_piece(alloc: Global, text: &[char]) -> Result<Piece, Fault>
    ensures value { Answers (IsLiteralPiece text.now) result }
    ensures within { IfOk result (IsWithin (length text.now)) }
{
    let [_, after @ ..] = text else {
        return Err(Fault::Unknown);
    };
    let Some(more) = literal_length(after) else {
        return Err(Fault::Unknown);
    };
    if more < 2 {
        return Err(Fault::Unknown);
    }
    let characters = literal_characters(alloc, &text[..more + 1])?;
    let meant = text_of(alloc, characters.as_slice())?;
    Ok(Piece::Formed(Token::Literal(meant), more))
}

fn double_sign(c: char) -> Option<Piece>
    ensures value { result ≡ double_sign c }
    ensures within { IfSome result (IsWithin 2) }
{
    match c {
        '|' => Some(Piece::Formed(Token::DoubleBar, 1)),
        '&' => Some(Piece::Formed(Token::DoubleAmpersand, 1)),
        '=' => Some(Piece::Formed(Token::DoubleEquals, 1)),
        _ => None,
    }
}

/// The sign that begins with the character.
fn sign(c: char, after: &[char]) -> Option<Piece>
    ensures value { result ≡ sign c after.now }
    ensures within { IfSome result (IsWithin (1 + length after.now)) }
{
    match c {
        '(' => Some(Piece::Formed(Token::LeftParenthesis, 0)),
        ')' => Some(Piece::Formed(Token::RightParenthesis, 0)),
        '!' => Some(Piece::Formed(Token::Exclamation, 0)),
        _ if begins(c, after) => double_sign(c),
        _ => None,
    }
}

/// The piece that the text begins with.
pub fn read_piece(alloc: Global, text: &[char]) -> Result<Piece, Fault>
    ensures value { Answers (IsPiece text.now) result }
    ensures within { IfOk result (IsWithin (length text.now)) }
{
    let [c, after @ ..] = text else {
        return Err(Fault::Unknown);
    };
    let c = *c;
    if is_blank(c) {
        Ok(Piece::Blank)
    } else if is_alphabetic(c) {
        let name = name_piece(alloc, c, after)?;
        Ok(name)
    } else if is_one_to_eight(c) {
        Ok(Piece::Formed(Token::Digit(c as u32 - 48), 0))
    } else if c == '\'' {
        literal_piece(alloc, text)
    } else {
        match sign(c, after) {
            Some(piece) => Ok(piece),
            None => Err(Fault::Unknown),
        }
    }
}
