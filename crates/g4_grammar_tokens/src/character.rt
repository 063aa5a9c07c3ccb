// The classes of characters of a grammar text.
ghost use Rattle.std.specs.Prelude.{◌≡◌, ◌≤◌, length};
ghost use Rattle.std.specs.List.{prefix_len};
ghost use Rattle.g4_grammar_tokens.specs.Characters.{begins, is_blank, is_in_line, is_name_part, is_upper};

use unicode::properties::{GeneralCategory, is_alphabetic};

/// Whether a name that begins with the letter is upper-case.
pub fn is_upper(c: char) -> bool
    ensures { result ≡ is_upper c }
{
    matches!(
        GeneralCategory::for_char(c),
        GeneralCategory::UppercaseLetter
    )
}

/// Whether the character is a letter, a digit or `_`.
pub fn is_name_part(c: char) -> bool
    ensures { result ≡ is_name_part c }
{
    is_alphabetic(c) || c.is_ascii_digit() || c == '_'
}

/// Whether the character is a space, tab, newline, return or form feed.
pub fn is_blank(c: char) -> bool
    ensures { result ≡ is_blank c }
{
    c == ' ' || c == '\t' || c == '\n' || c == '\r' || c == '\u{C}'
}

/// Whether the text begins with the character.
pub fn begins(c: char, text: &[char]) -> bool
    ensures { result ≡ begins c text.now }
{
    match text {
        [first, ..] => *first == c,
        [] => false,
    }
}

/// How many parts of a name the text begins with.
pub fn name_length(text: &[char]) -> usize
    ensures value { result ≡ prefix_len is_name_part text.now }
    ensures within { result ≤ length text.now }
{
    text.iter().take_while(|c| is_name_part(**c)).count()
}

/// How many characters there are up to the end of the line.
pub fn line_length(text: &[char]) -> usize
    ensures value { result ≡ prefix_len is_in_line text.now }
    ensures within { result ≤ length text.now }
{
    text.iter().take_while(|c| **c != '\n').count()
}
