// The pieces of a grammar text: tokens, and what is between them.
ghost use Rattle.std.specs.Prelude.{◌≡◌, ◌≤◌, length};
ghost use Rattle.std.specs.List.{prefix_len};
ghost use Rattle.std.specs.Char.{is_ascii_digit};
ghost use Rattle.g4_grammar_tokens.specs.Pieces.{up_to, comment, literal, set, arguments, action, IsPiece, slash_opening, name_piece, comparison, lone_sign, sign_piece, bracket_opening, left_brace_opening, right_brace_piece, marked_opening, opening, IsWithin};
ghost use Rattle.g4_grammar_tokens.specs.Readings.{holds_sets};
ghost use Rattle.g4_base.specs.declared.limits.TheConstants.{MOST_BYTES};

use crate::Kind;
use crate::character::{begins, is_blank, is_upper, line_length, name_length};
use crate::comment::comment_end;
use crate::enclosed::enclosed;
use crate::nesting::nesting_end;
use crate::statement::Statement;
use g4_chars::Context;
use unicode::properties::is_alphabetic;

/// A piece of a text, with how many characters it has after its first.
#[derive(Clone, Copy)]
pub enum Piece {
    /// A blank or a comment.
    Gap(usize),
    /// A token.
    Formed(Kind, usize),
    /// What doesn't close, or holds a bad escape.
    Faulty,
}

fn comment_piece(rest: &[char]) -> Piece
    requires star { 1 ≤ length rest.now }
    ensures value { IsPiece (up_to comment) rest.now result }
    ensures within { IsWithin (length rest.now) result }
{
    match comment_end(&rest[1..]) {
        Some(taken) => Piece::Gap(taken + 1),
        None => Piece::Faulty,
    }
}

fn slash_piece(rest: &[char]) -> Piece
    ensures value { IsPiece (slash_opening rest.now) rest.now result }
    ensures within { IsWithin (length rest.now) result }
{
    if begins('/', rest) {
        return Piece::Gap(line_length(rest));
    }
    if begins('*', rest) {
        return comment_piece(rest);
    }
    Piece::Formed(Kind::Stray, 0)
}

fn name_piece(letter: char, rest: &[char]) -> Piece
    ensures value { result ≡ name_piece letter rest.now }
    ensures within { IsWithin (length rest.now) result }
{
    let kind = if is_upper(letter) {
        Kind::Upper
    } else {
        Kind::Lower
    };
    Piece::Formed(kind, name_length(rest))
}

fn literal_piece(rest: &[char]) -> Piece
    ensures value { IsPiece (up_to literal) rest.now result }
    ensures within { IsWithin (length rest.now) result }
{
    match enclosed(Context::Literal, '\'', rest) {
        Some(taken) => {
            if taken > 1 {
                Piece::Formed(Kind::Literal, taken)
            } else {
                Piece::Faulty
            }
        }
        None => Piece::Faulty,
    }
}

fn set_piece(rest: &[char]) -> Piece
    ensures value { IsPiece (up_to set) rest.now result }
    ensures within { IsWithin (length rest.now) result }
{
    match enclosed(Context::Set, ']', rest) {
        Some(taken) => Piece::Formed(Kind::Set, taken),
        None => Piece::Faulty,
    }
}

fn arguments_piece(rest: &[char]) -> Piece
    requires fits { length rest.now ≤ MOST_BYTES }
    ensures value { IsPiece (up_to arguments) rest.now result }
    ensures within { IsWithin (length rest.now) result }
{
    match nesting_end('[', ']', rest) {
        Some(taken) => Piece::Formed(Kind::Arguments, taken),
        None => Piece::Faulty,
    }
}

fn action_piece(rest: &[char]) -> Piece
    requires fits { length rest.now ≤ MOST_BYTES }
    ensures value { IsPiece (up_to action) rest.now result }
    ensures within { IsWithin (length rest.now) result }
{
    match nesting_end('{', '}', rest) {
        Some(taken) => Piece::Formed(Kind::Action, taken),
        None => Piece::Faulty,
    }
}

fn comparison(c: char) -> Kind
    ensures { result ≡ comparison c }
{
    match c {
        '=' => Kind::Equals,
        '#' => Kind::Hash,
        ',' => Kind::Comma,
        '@' => Kind::At,
        '<' => Kind::Less,
        '>' => Kind::Greater,
        _ => Kind::Stray,
    }
}

fn lone_sign(c: char) -> Kind
    ensures { result ≡ lone_sign c }
{
    match c {
        ';' => Kind::Semicolon,
        '|' => Kind::Bar,
        '(' => Kind::LeftParenthesis,
        ')' => Kind::RightParenthesis,
        '?' => Kind::Question,
        '*' => Kind::Star,
        '~' => Kind::Tilde,
        _ => comparison(c),
    }
}

fn sign_piece(c: char, rest: &[char]) -> Piece
    ensures value { result ≡ sign_piece c rest.now }
    ensures within { IsWithin (length rest.now) result }
{
    match c {
        ':' if begins(':', rest) => Piece::Formed(Kind::DoubleColon, 1),
        ':' => Piece::Formed(Kind::Colon, 0),
        '+' if begins('=', rest) => Piece::Formed(Kind::PlusEquals, 1),
        '+' => Piece::Formed(Kind::Plus, 0),
        '-' if begins('>', rest) => Piece::Formed(Kind::Arrow, 1),
        '-' => Piece::Formed(Kind::Stray, 0),
        '.' if begins('.', rest) => Piece::Formed(Kind::DoubleDot, 1),
        '.' => Piece::Formed(Kind::Dot, 0),
        _ => Piece::Formed(lone_sign(c), 0),
    }
}

fn bracket_piece(sets: bool, rest: &[char]) -> Piece
    requires fits { length rest.now ≤ MOST_BYTES }
    ensures value { IsPiece (bracket_opening sets) rest.now result }
    ensures within { IsWithin (length rest.now) result }
{
    if sets {
        set_piece(rest)
    } else {
        arguments_piece(rest)
    }
}

fn left_brace_piece(names_braces: bool, rest: &[char]) -> Piece
    requires fits { length rest.now ≤ MOST_BYTES }
    ensures value { IsPiece (left_brace_opening names_braces) rest.now result }
    ensures within { IsWithin (length rest.now) result }
{
    if names_braces {
        Piece::Formed(Kind::LeftBrace, 0)
    } else {
        action_piece(rest)
    }
}

fn right_brace_piece(in_braces: bool) -> Piece
    ensures value { result ≡ right_brace_piece in_braces }
    ensures within { IsWithin 0 result }
{
    if in_braces {
        Piece::Formed(Kind::RightBrace, 0)
    } else {
        Piece::Formed(Kind::Stray, 0)
    }
}

fn marked_piece(statement: Statement, c: char, rest: &[char]) -> Piece
    requires fits { length rest.now ≤ MOST_BYTES }
    ensures value { IsPiece (marked_opening (holds_sets statement) statement.names_braces statement.in_braces c rest.now) rest.now result }
    ensures within { IsWithin (length rest.now) result }
{
    match c {
        '/' => slash_piece(rest),
        '\'' => literal_piece(rest),
        '[' => bracket_piece(statement.holds_sets(), rest),
        '{' => left_brace_piece(statement.names_braces, rest),
        '}' => right_brace_piece(statement.in_braces),
        _ => sign_piece(c, rest),
    }
}

/// How many digits the text begins with.
fn number_length(text: &[char]) -> usize
    ensures value { result ≡ prefix_len is_ascii_digit text.now }
    ensures within { result ≤ length text.now }
{
    text.iter().take_while(|c| c.is_ascii_digit()).count()
}

/// The piece that begins with the character, given what follows it.
pub fn read_piece(statement: Statement, c: char, rest: &[char]) -> Piece
    requires fits { length rest.now ≤ MOST_BYTES }
    ensures value { IsPiece (opening (holds_sets statement) statement.names_braces statement.in_braces c rest.now) rest.now result }
    ensures within { IsWithin (length rest.now) result }
{
    if is_blank(c) {
        Piece::Gap(0)
    } else if is_alphabetic(c) {
        name_piece(c, rest)
    } else if c.is_ascii_digit() {
        Piece::Formed(Kind::Number, number_length(rest))
    } else {
        marked_piece(statement, c, rest)
    }
}
