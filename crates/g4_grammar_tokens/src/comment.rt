// Where comments end.
ghost use Rattle.std.specs.Prelude.{◌≡◌, ◌≤◌, length, IfSome};
ghost use Rattle.g4_grammar_tokens.specs.Comments.{comment_end};

use crate::character::begins;

/// How many characters there are up to the next `*/`, that included.
pub fn comment_end(text: &[char]) -> Option<usize>
    ensures value { result ≡ comment_end text.now }
    ensures within { IfSome result (λ taken. taken ≤ length text.now) }
{
    for (at, c) in text.iter().enumerate() {
        if *c == '*' && begins('/', &text[at + 1..]) {
            return Some(at + 2);
        }
    }
    None
}
