// Where quoted text in actions and arguments ends.
ghost use Rattle.std.specs.Prelude.{◌≡◌, ◌≤◌, ◌<◌, ◌+◌, length, drop, slice_index, IfSome};
ghost use Rattle.g4_grammar_tokens.specs.Nesting.{quote_end, quoted, IsUnclosed};

use crate::character::line_length;

/// For each kind of quote an index: no quote from here up to it is closed on its line. So no line is read again for each of
/// its quotes.
#[derive(Clone, Copy)]
pub struct Unclosed {
    pub single: usize,
    pub double: usize,
}

fn quote_end(quote: char, text: &[char]) -> Option<usize>
    ensures value { result ≡ quote_end quote text.now }
    ensures within { IfSome result (λ taken. taken ≤ length text.now) }
{
    let mut escaped = false;
    for (at, c) in text.iter().enumerate() {
        if *c == '\n' {
            return None;
        }
        if escaped {
            escaped = false;
        } else if *c == quote {
            return Some(at + 1);
        } else {
            escaped = *c == '\\';
        }
    }
    None
}

/// How many characters the quoted text has after the quote at the index, 0 where it isn't closed, and up to where no such
/// quote is closed.
pub fn quoted_at(quote: char, text: &[char], at: usize, until: usize) -> (usize, usize)
    requires within { at < length text.now }
    requires known { IsUnclosed quote text.now at until }
    requires here { slice_index text.now at ≡ quote }
    ensures value { result.0 ≡ quoted quote (drop (at + 1) text.now) }
    ensures within { at + 1 + result.0 ≤ length text.now }
    ensures known { IsUnclosed quote text.now at result.1 }
{
    if at < until {
        return (0, until);
    }
    let rest = &text[at + 1..];
    match quote_end(quote, rest) {
        Some(taken) => (taken, until),
        None => (0, at + 1 + line_length(rest)),
    }
}
