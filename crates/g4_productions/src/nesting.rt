// How deep the brackets of a grammar text are nested.
ghost use Rattle.std.specs.Prelude.{◌≡◌, ◌<◌, ◌≤◌, ◌+◌, ◌-◌, ◌^◌, ℕ, List, IfSome, length};
ghost use Rattle.g4_cursor.specs.Texts.{spelled};
ghost use Rattle.g4_grammar_tokens.specs.declared.token.Kind.TheVariants as kinds;
ghost use Rattle.g4_productions.specs.Answering.{FindsTooDeep, one_if, opens_too_deep};

use g4_grammar_tokens::{Kind, Token};

/// How many brackets may be open at once.
pub const MOST_OPEN: usize = 256;

/// 1 where a token of this kind is of the wanted one, else 0.
fn one_if(wanted: Kind, kind: Kind) -> usize
    ensures value { result ≡ one_if wanted kind }
    ensures few { result ≤ 1 }
{
    if kind == wanted { 1 } else { 0 }
}

/// How many brackets some tokens open, and how many they close.
#[derive(Clone, Copy)]
struct Brackets {
    opened: usize,
    closed: usize,
}

impl Brackets {
    /// Whether a token of this kind is a bracket that opens while `MOST_OPEN` are open.
    fn opens_too_deep(self, kind: Kind) -> bool
        ensures { result ≡ opens_too_deep kind (self.opened - self.closed) }
    {
        kind == Kind::LeftParenthesis && self.opened.saturating_sub(self.closed) >= MOST_OPEN
    }

    /// The numbers with one more token, of this kind.
    fn past(self, kind: Kind) -> Brackets
        requires opened { self.opened < 2 ^ 64 - 1 }
        requires closed { self.closed < 2 ^ 64 - 1 }
        ensures opened { result.opened ≡ self.opened + one_if kinds.LeftParenthesis kind }
        ensures closed { result.closed ≡ self.closed + one_if kinds.RightParenthesis kind }
    {
        Brackets {
            opened: self.opened + one_if(Kind::LeftParenthesis, kind),
            closed: self.closed + one_if(Kind::RightParenthesis, kind),
        }
    }
}

/// The index of the first `(` that opens while `MOST_OPEN` brackets are open, if one does.
pub(crate) fn first_too_deep(tokens: &[Token]) -> Option<usize>
    ensures found { (text : List ℕ) → FindsTooDeep (spelled text tokens.now) result }
    ensures within { IfSome result (λ at. at < length tokens.now) }
{
    let mut brackets = Brackets {
        opened: 0,
        closed: 0,
    };
    for (at, token) in tokens.iter().enumerate() {
        if brackets.opens_too_deep(token.kind) {
            return Some(at);
        }
        brackets = brackets.past(token.kind);
    }
    None
}
