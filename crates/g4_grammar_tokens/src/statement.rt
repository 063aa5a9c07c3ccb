// Statements, as far as they distinguish sets from arguments and braces from actions.
ghost use Rattle.std.specs.Prelude.{◌≡◌, [], true, false};
ghost use Rattle.g4_grammar_tokens.specs.Statements.{is_mark, is_options, is_list_word, is_modifier, is_handler, is_reserved, braces_past, body_past, name_of, own_name, begins_options, begins_list};
ghost use Rattle.g4_grammar_tokens.specs.Readings.{statement_of, named_past, braces_named, body_open, statement_past, holds_sets};

use crate::Kind;

/// What the name of a statement's rule begins with, as far as it is read.
#[derive(Clone, Copy)]
pub enum Named {
    NoName,
    LowerName,
    UpperName,
}

/// What is kept of the earlier tokens, to decide what brackets and braces are.
#[derive(Clone, Copy)]
pub struct Statement {
    /// The name of the rule.
    pub named: Named,
    /// Whether the `:` of the rule comes before.
    pub in_body: bool,
    /// Whether the braces of `options`, `tokens` or `channels` are open.
    pub in_braces: bool,
    /// The kind of the last token; `Semicolon` before the first.
    pub last: Kind,
    /// Whether the last token is the name of such braces.
    pub names_braces: bool,
}

fn is_mark(kind: Kind) -> bool
    ensures { result ≡ is_mark kind }
{
    match kind {
        Kind::At => true,
        Kind::DoubleColon => true,
        _ => false,
    }
}

fn is_options(word: &[char]) -> bool
    ensures { result ≡ is_options word.now }
{
    word == ['o', 'p', 't', 'i', 'o', 'n', 's'].as_slice()
}

fn is_list_word(word: &[char]) -> bool
    ensures { result ≡ is_list_word word.now }
{
    word == ['t', 'o', 'k', 'e', 'n', 's'].as_slice()
        || word == ['c', 'h', 'a', 'n', 'n', 'e', 'l', 's'].as_slice()
}

fn is_modifier(word: &[char]) -> bool
    ensures { result ≡ is_modifier word.now }
{
    word == ['p', 'u', 'b', 'l', 'i', 'c'].as_slice()
        || word == ['p', 'r', 'i', 'v', 'a', 't', 'e'].as_slice()
        || word == ['p', 'r', 'o', 't', 'e', 'c', 't', 'e', 'd'].as_slice()
        || word == ['f', 'r', 'a', 'g', 'm', 'e', 'n', 't'].as_slice()
}

fn is_handler(word: &[char]) -> bool
    ensures { result ≡ is_handler word.now }
{
    word == ['c', 'a', 't', 'c', 'h'].as_slice()
        || word == ['f', 'i', 'n', 'a', 'l', 'l', 'y'].as_slice()
}

fn is_reserved(word: &[char]) -> bool
    ensures { result ≡ is_reserved word.now }
{
    is_modifier(word) || is_handler(word) || is_options(word) || is_list_word(word)
}

fn name_of(kind: Kind) -> Named
    ensures { result ≡ name_of kind }
{
    match kind {
        Kind::Lower => Named::LowerName,
        Kind::Upper => Named::UpperName,
        _ => Named::NoName,
    }
}

fn own_name(before: Kind, kind: Kind, word: &[char]) -> Named
    ensures { result ≡ own_name before kind word.now }
{
    if is_mark(before) || is_reserved(word) {
        Named::NoName
    } else {
        name_of(kind)
    }
}

fn begins_options(before: Kind, in_body: bool, word: &[char]) -> bool
    ensures { result ≡ begins_options before in_body word.now }
{
    is_options(word) && (!in_body || matches!(before, Kind::LeftParenthesis))
}

fn begins_list(in_braces: bool, in_body: bool, named: Named, word: &[char]) -> bool
    ensures { result ≡ begins_list in_braces in_body named word.now }
{
    is_list_word(word) && (!in_braces && !in_body && matches!(named, Named::NoName))
}

fn body_past(kind: Kind, in_body: bool) -> bool
    ensures { result ≡ body_past kind in_body }
{
    match kind {
        Kind::Colon => true,
        Kind::Semicolon => false,
        _ => in_body,
    }
}

fn braces_past(kind: Kind, in_braces: bool) -> bool
    ensures { result ≡ braces_past kind in_braces }
{
    match kind {
        Kind::LeftBrace => true,
        Kind::RightBrace => false,
        _ => in_braces,
    }
}

impl Statement {
    /// A statement of which nothing is read.
    pub fn unread() -> Self
        ensures { result ≡ statement_of [] }
    {
        Statement {
            named: Named::NoName,
            in_body: false,
            in_braces: false,
            last: Kind::Semicolon,
            names_braces: false,
        }
    }

    fn named_past(self, kind: Kind, word: &[char]) -> Named
        ensures { result ≡ named_past self kind word.now }
    {
        if self.in_braces {
            self.named
        } else if matches!(kind, Kind::Semicolon) {
            Named::NoName
        } else if self.in_body {
            self.named
        } else {
            match self.named {
                Named::NoName => own_name(self.last, kind, word),
                named => named,
            }
        }
    }

    fn braces_named(self, kind: Kind, word: &[char]) -> bool
        ensures { result ≡ braces_named self kind word.now }
    {
        (matches!(kind, Kind::Lower) && !is_mark(self.last))
            && (begins_options(self.last, self.in_body, word)
                || begins_list(self.in_braces, self.in_body, self.named, word))
    }

    fn body_open(self, kind: Kind) -> bool
        ensures { result ≡ body_open self kind }
    {
        if self.in_braces {
            self.in_body
        } else {
            body_past(kind, self.in_body)
        }
    }

    /// The statement after a token of this kind and these characters.
    pub fn past(self, kind: Kind, word: &[char]) -> Self
        ensures { result ≡ statement_past self kind word.now }
    {
        Statement {
            named: self.named_past(kind, word),
            in_body: self.body_open(kind),
            in_braces: braces_past(kind, self.in_braces),
            last: kind,
            names_braces: self.braces_named(kind, word),
        }
    }

    /// Whether brackets hold a set.
    pub fn holds_sets(self) -> bool
        ensures { result ≡ holds_sets self }
    {
        self.in_body && matches!(self.named, Named::UpperName)
    }
}
