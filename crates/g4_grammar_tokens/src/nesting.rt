// Where actions and arguments end.
ghost use Rattle.std.specs.Prelude.{◌≡◌, ◌≤◌, ◌<◌, ◌+◌, ◌^◌, length, drop, slice_index, IfSome};
ghost use Rattle.g4_grammar_tokens.specs.Nesting.{commented, closes, depth_after, passed_over, Nests, AreUnclosed};
ghost use Rattle.g4_grammar_tokens.specs.Ends.{Finds};
ghost use Rattle.g4_base.specs.declared.limits.TheConstants.{MOST_BYTES};

use crate::character::{begins, line_length};
use crate::comment::comment_end;
use crate::quote::{Unclosed, quoted_at};

fn commented(rest: &[char]) -> usize
    ensures value { result ≡ commented rest.now }
    ensures within { result ≤ length rest.now }
{
    if begins('/', rest) {
        return line_length(rest);
    }
    if !begins('*', rest) {
        return 0;
    }
    match comment_end(&rest[1..]) {
        Some(taken) => taken + 1,
        None => rest.len(),
    }
}

fn closes(closing: char, depth: usize, c: char) -> bool
    ensures { result ≡ closes closing depth c }
{
    c == closing && depth == 0
}

fn depth_after(opening: char, closing: char, depth: usize, c: char) -> usize
    requires { depth < 2 ^ 32 }
    ensures value { result ≡ depth_after opening closing depth c }
    ensures within { result ≤ depth + 1 }
{
    if c == closing {
        depth.saturating_sub(1)
    } else if c == opening {
        depth + 1
    } else {
        depth
    }
}

/// How many characters after this one, which is at the index, are no part of the nesting.
fn passed(
    opening: char,
    closing: char,
    c: char,
    text: &[char],
    at: usize,
    unclosed: Unclosed,
) -> (usize, Unclosed)
    requires within { at < length text.now }
    requires here { slice_index text.now at ≡ c }
    requires known { AreUnclosed text.now at unclosed }
    ensures value { result.0 ≡ passed_over opening closing c (drop (at + 1) text.now) }
    ensures within { at + 1 + result.0 ≤ length text.now }
    ensures known { AreUnclosed text.now at result.1 }
{
    if c == closing || c == opening {
        (0, unclosed)
    } else if c == '"' {
        let (taken, double) = quoted_at('"', text, at, unclosed.double);
        (
            taken,
            Unclosed {
                single: unclosed.single,
                double,
            },
        )
    } else if c == '\'' {
        let (taken, single) = quoted_at('\'', text, at, unclosed.single);
        (
            taken,
            Unclosed {
                single,
                double: unclosed.double,
            },
        )
    } else if c == '/' {
        (commented(&text[at + 1..]), unclosed)
    } else {
        (0, unclosed)
    }
}

/// How many characters there are up to the one that closes, that included.
pub fn nesting_end(opening: char, closing: char, text: &[char]) -> Option<usize>
    requires fits { length text.now ≤ MOST_BYTES }
    ensures end { Finds (Nests opening closing text.now) result }
    ensures within { IfSome result (λ taken. taken ≤ length text.now) }
{
    let mut unclosed = Unclosed {
        single: 0,
        double: 0,
    };
    let mut depth: usize = 0;
    let mut at = 0;
    while at < text.len() {
        let c = text[at];
        if closes(closing, depth, c) {
            return Some(at + 1);
        }
        let (more, known) = passed(opening, closing, c, text, at, unclosed);
        unclosed = known;
        depth = depth_after(opening, closing, depth, c);
        at += 1 + more;
    }
    None
}
