// Where literals and sets end.
ghost use Rattle.std.specs.Prelude.{◌≡◌, ◌≤◌, length, IfSome};
ghost use Rattle.g4_grammar_tokens.specs.Enclosed.{unit_more, Encloses};
ghost use Rattle.g4_grammar_tokens.specs.Ends.{Finds};
ghost use Rattle.g4_chars.specs.Escapes.{breaks};

use g4_chars::{Context, read_escape};

fn breaks(context: Context, c: char) -> bool
    ensures { result ≡ breaks context c }
{
    matches!(context, Context::Literal) && c == '\n'
}

/// How many characters after this one belong to it; `None` at the end of a literal's line, and at a bad escape.
fn unit_more(context: Context, c: char, rest: &[char]) -> Option<usize>
    ensures value { result ≡ unit_more context c rest.now }
    ensures within { IfSome result (λ more. more ≤ length rest.now) }
{
    if breaks(context, c) {
        None
    } else if c == '\\' {
        let escape = read_escape(context, rest)?;
        Some(escape.taken)
    } else {
        Some(0)
    }
}

/// How many characters there are up to the one that closes, that included.
pub fn enclosed(context: Context, close: char, text: &[char]) -> Option<usize>
    ensures end { Finds (Encloses context close text.now) result }
    ensures within { IfSome result (λ taken. taken ≤ length text.now) }
{
    let mut at = 0;
    while at < text.len() {
        let c = text[at];
        if c == close {
            return Some(at + 1);
        }
        let Some(more) = unit_more(context, c, &text[at + 1..]) else {
            return None;
        };
        at += 1 + more;
    }
    None
}
