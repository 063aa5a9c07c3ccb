// One line of a `.tokens` file.
ghost use Rattle.std.specs.Prelude.{◌≡◌, ◌≤◌, true, length, IfOk};
ghost use Rattle.std.specs.Char.{is_ascii_digit};
ghost use Rattle.std.specs.List.{list_all};
ghost use Rattle.std.specs.Str.{chars};
ghost use Rattle.std.specs.Str.Parse.{digits_value};
ghost use Rattle.g4_base.specs.declared.limits.TheConstants.{MOST_BYTES};
ghost use Rattle.g4_grammar_tokens.specs.Spelling.{literal_spelling};
ghost use Rattle.g4_token_file.specs.Answers.{Answers, IsCappedLine, capped};
ghost use Rattle.g4_token_file.specs.Lines.{IsKey, IsToken, is_literal, is_name, is_number, whole_kind};

use crate::entry::{TokenEntry, TokenKey};
use crate::fault::LineFault;
use g4_base::{Sequence, Text};
use g4_grammar_tokens::{Kind, ScanFault, Token, literal_characters, scan};
use g4_tokens::MOST_TYPES;
use memchr::memrchr;
use std::alloc::{AllocError, Global};
use std::str;

/// The kind of the token that is the whole of a text with this many bytes.
fn whole_kind(tokens: &[Token], size: usize) -> Option<Kind>
    ensures { result ≡ whole_kind tokens.now size }
{
    match tokens {
        [token] => {
            if token.start == 0 && token.end == size {
                Some(token.kind)
            } else {
                None
            }
        }
        _ => None,
    }
}

/// The kind of the token that the text is.
fn token_kind(alloc: Global, text: &str) -> Result<Kind, LineFault>
    requires { length text.now ≤ MOST_BYTES }
    ensures { Answers (λ kind. IsToken kind text.now) result }
{
    match scan(alloc, text.as_bytes()) {
        Ok(tokens) => match whole_kind(tokens.as_slice(), text.len()) {
            Some(kind) => Ok(kind),
            None => Err(LineFault::Bad),
        },
        Err(ScanFault::NotUtf8(_)) => Err(LineFault::Bad),
        Err(ScanFault::Syntax(..)) => Err(LineFault::Bad),
        Err(ScanFault::NoMemory) => Err(LineFault::NoMemory),
    }
}

fn is_name(kind: Kind) -> bool
    ensures { result ≡ is_name kind }
{
    matches!(kind, Kind::Upper)
}

fn is_literal(kind: Kind) -> bool
    ensures { result ≡ is_literal kind }
{
    matches!(kind, Kind::Literal)
}

/// The characters that the literal represents.
fn spelled(alloc: Global, text: &str) -> Result<Sequence<char>, AllocError>
    ensures { IfOk result (λ characters. characters ≡ literal_spelling (chars text.now)) }
{
    let characters: Vec<char> = text.chars().collect(alloc)?;
    let meant = literal_characters(alloc, &characters)?;
    Ok(meant)
}

/// The token name or the literal that the text is.
fn read_key(alloc: Global, text: &str) -> Result<TokenKey, LineFault>
    requires { length text.now ≤ MOST_BYTES }
    ensures { Answers (IsKey text.now) result }
{
    let kind = token_kind(alloc, text)?;
    if is_name(kind) {
        let name = Text::copy_of(alloc, text)?;
        Ok(TokenKey::Name(name))
    } else if is_literal(kind) {
        let characters = spelled(alloc, text)?;
        Ok(TokenKey::Literal(characters))
    } else {
        Err(LineFault::Bad)
    }
}

fn all_digits(bytes: &[u8]) -> bool
    ensures { result ≡ list_all is_ascii_digit bytes.now }
{
    bytes.iter().all(|byte| byte.is_ascii_digit())
}

fn is_number(digits: &[u8]) -> bool
    ensures { result ≡ is_number digits.now }
{
    match digits {
        [] => false,
        [first, ..] => *first != b'0' && all_digits(digits),
    }
}

/// The number that the digits write, capped.
fn capped_value(digits: &[u8]) -> u32
    requires { list_all is_ascii_digit digits.now ≡ true }
    ensures { result ≡ capped (digits_value 10 digits.now) }
{
    let mut value: u32 = 0;
    for digit in digits {
        let more = value * 10 + u32::from(*digit - b'0');
        value = more.min(MOST_TYPES + 1);
    }
    value
}

/// What the line says, its number capped.
pub fn read_line(alloc: Global, line: &[u8]) -> Result<TokenEntry, LineFault>
    requires { length line.now ≤ MOST_BYTES }
    ensures { Answers (IsCappedLine line.now) result }
{
    let Some(at) = memrchr(b'=', line) else {
        return Err(LineFault::Bad);
    };
    let digits = &line[at + 1..];
    if !is_number(digits) {
        return Err(LineFault::Bad);
    }
    let Ok(text) = str::from_utf8(&line[..at]) else {
        return Err(LineFault::Bad);
    };
    let key = read_key(alloc, text)?;
    Ok(TokenEntry {
        key,
        written: Text::copy_of(alloc, text)?,
        number: capped_value(digits),
    })
}
