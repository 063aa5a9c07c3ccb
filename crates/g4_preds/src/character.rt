// The classes of characters of a predicate's text.
ghost use Rattle.std.specs.Prelude.{◌≡◌, ◌≤◌, length};
ghost use Rattle.std.specs.List.{prefix_len};
ghost use Rattle.g4_grammar_tokens.specs.Characters.{begins, is_name_part};
ghost use Rattle.g4_preds.specs.Tokens.{is_blank, is_one_to_eight};

use unicode::properties::is_alphabetic;

/// Whether the character is a space, tab or newline.
pub fn is_blank(c: char) -> bool
    ensures { result ≡ is_blank c }
{
    c == ' ' || c == '\t' || c == '\n'
}

/// Whether the character is a digit from 1 to 8.
pub fn is_one_to_eight(c: char) -> bool
    ensures { result ≡ is_one_to_eight c }
{
    '1' <= c && c <= '8'
}

/// Whether the text begins with the character.
pub fn begins(c: char, text: &[char]) -> bool
    ensures { result ≡ begins c text.now }
{
    match text {
        [first, ..] => *first == c,
        [] => false,
    }
}

fn is_name_part(c: char) -> bool
    ensures { result ≡ is_name_part c }
{
    is_alphabetic(c) || c.is_ascii_digit() || c == '_'
}

/// How many letters, digits and `_` the text begins with.
pub fn name_length(text: &[char]) -> usize
    ensures value { result ≡ prefix_len is_name_part text.now }
    ensures within { result ≤ length text.now }
{
    text.iter().take_while(|c| is_name_part(**c)).count()
}
