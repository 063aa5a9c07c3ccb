// Where a literal ends.
ghost use Rattle.std.specs.Prelude.{◌≡◌, ◌≤◌, length, IfSome};
ghost use Rattle.g4_chars.specs.declared.escape.Context.TheVariants.{Literal};
ghost use Rattle.g4_grammar_tokens.specs.Enclosed.{unit_more, Encloses};
ghost use Rattle.g4_grammar_tokens.specs.Ends.{Finds};

use g4_chars::{Context, read_escape};

/// How many characters after this one belong to it: none where the line ends, or its escape is bad.
fn unit_more(c: char, after: &[char]) -> Option<usize>
    ensures value { result ≡ unit_more Literal c after.now }
    ensures within { IfSome result (λ more. more ≤ length after.now) }
{
    if c == '\n' {
        None
    } else if c == '\\' {
        let escape = read_escape(Context::Literal, after)?;
        Some(escape.taken)
    } else {
        Some(0)
    }
}

/// How many characters there are up to the quote that closes the literal, that included.
pub fn literal_length(text: &[char]) -> Option<usize>
    ensures end { Finds (Encloses Literal 39 text.now) result }
    ensures within { IfSome result (λ taken. taken ≤ length text.now) }
{
    let mut at = 0;
    while at < text.len() {
        let c = text[at];
        if c == '\'' {
            return Some(at + 1);
        }
        let Some(more) = unit_more(c, &text[at + 1..]) else {
            return None;
        };
        at += 1 + more;
    }
    None
}
