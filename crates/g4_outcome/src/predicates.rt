// The values of a grammar's predicates over a file.
ghost use Rattle.std.specs.Prelude.{◌≡◌};
ghost use Rattle.std.specs.List.{list_any};
ghost use Rattle.std.specs.Str.{bytes_eq};
ghost use Rattle.g4_outcome.specs.Predicates.{rule_name, text_in};

use crate::grammar::Grammar;
use g4_base::Text;
use g4_parse::{Opened, Predicates};
use g4_preds::Surroundings;
use g4_tokens::{Token, Tokens};

/// The name of the rule of this number. Rules count from 1.
fn rule_name(names: &[Text], rule: u32) -> &str
    ensures { result.now ≡ rule_name names.now rule }
{
    match names.get((rule as usize).saturating_sub(1)) {
        Some(name) => name.as_str(),
        None => "",
    }
}

/// Whether the rule of this name is one of these.
fn is_open(names: &[Text], opened: &[Opened], rule: &str) -> bool
    ensures { result ≡ list_any (λ o. bytes_eq rule.now (rule_name names.now o.rule)) opened.now }
{
    opened
        .iter()
        .any(|open| rule == rule_name(names, open.rule))
}

/// Whether the token has this text. Those that close the file have `<EOF>`.
fn has_text(bytes: &[u8], token: &Token, text: &str) -> bool
    ensures { result ≡ bytes_eq (text_in bytes.now token.now) text.now }
{
    let start = token.start as usize;
    if bytes.len() <= start {
        return "<EOF>" == text;
    }
    let end = (token.end as usize).clamp(start, bytes.len());
    &bytes[start..end] == text.as_bytes()
}

/// What predicates look at: with these rules open, newest last, at this place of the token list.
#[derive(Clone, Copy)]
struct Here<'a> {
    grammar: &'a Grammar,
    tokens: &'a Tokens,
    opened: &'a [Opened],
    place: u32,
}

impl Surroundings for Here<'_> {
    ghost use Rattle.std.specs.Prelude.{map, reverse};
    ghost use Rattle.g4_outcome.specs.Predicates.{moment_at};

    ghost moment = { λ here. moment_at here.grammar.now.flags here.grammar.now.names here.tokens.now
        (reverse (map (λ o. o.rule) here.opened.now)) here.place };

    fn has_flag(&self, name: &str) -> bool {
        self.grammar
            .flags
            .as_slice()
            .iter()
            .any(|flag| name == flag.as_str())
    }

    fn is_inside(&self, rule: &str) -> bool {
        is_open(self.grammar.names.as_slice(), self.opened, rule)
    }

    fn text_is(&self, nth: u32, text: &str) -> bool {
        let place = self.place as usize + (nth as usize).saturating_sub(1);
        match self.tokens.list.as_slice().get(place) {
            Some(token) => has_text(self.tokens.bytes.as_slice(), token, text),
            None => "<EOF>" == text,
        }
    }
}

/// The predicates of a grammar over the tokens of a file.
#[derive(Clone, Copy)]
pub struct FilePredicates<'a> {
    pub grammar: &'a Grammar,
    pub tokens: &'a Tokens,
}

impl Predicates for FilePredicates<'_> {
    ghost use Rattle.g4_outcome.specs.Predicates.{values_over};

    ghost values = { λ p. values_over p.grammar.now.flags p.grammar.now.names p.grammar.now.predicates p.tokens.now };

    fn holds(&self, predicate: u32, opened: &[Opened], place: u32) -> bool {
        let here = Here {
            grammar: self.grammar,
            tokens: self.tokens,
            opened,
            place,
        };
        match self.grammar.predicates.as_slice().get(predicate as usize) {
            Some(predicate) => predicate.eval(&here),
            None => false,
        }
    }
}
