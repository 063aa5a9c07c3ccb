// Which lexer rules' tokens literals name.
ghost use Rattle.std.specs.Prelude.{◌≡◌, IfOk, OnOk, map, option_map};
ghost use Rattle.g4_vocab.specs.Numbering.{named_rule, rule_literal};
ghost use Rattle.g4_vocab.specs.Tables.{AreWholes, AddsRule};

use crate::literal::default_literal;
use g4_source::{LexerRule, Literal};
use std::alloc::{AllocError, Global};
use std::collections::BTreeMap;

/// The names of rules of the default mode by the characters of the literals that they are: none where several are one literal.
type Names<'a> = BTreeMap<&'a [char], Option<&'a str>>;

/// Lexer rules, and which of those of the default mode are a literal and nothing else.
#[derive(Drop)]
pub struct Wholes<'a> {
    pub rules: Vec<&'a LexerRule>,
    pub names: Names<'a>,
    pub ghost named: { AreWholes (map (λ r. r.now) rules.items) names },
}

/// Adds the rule, where it is in the default mode, a literal and nothing else.
fn add_rule<'a>(names: &mut Names<'a>, rule: &'a LexerRule) -> Result<(), AllocError>
    ensures { OnOk result (AddsRule rule.now names.old names.new) }
{
    if let Some(literal) = default_literal(rule) {
        let characters = literal.characters.as_slice();
        let only = if names.contains_key(characters) {
            None
        } else {
            Some(rule.name.as_str())
        };
        names.insert(characters, only)?;
    }
    Ok(())
}

/// The names of the rules that are a literal, by its characters.
fn names_of<'a>(alloc: Global, rules: &[&'a LexerRule]) -> Result<Names<'a>, AllocError>
    ensures { IfOk result (AreWholes (map (λ r. r.now) rules.now)) }
{
    let mut names = BTreeMap::new(alloc);
    for rule in rules {
        add_rule(&mut names, *rule)?;
    }
    Ok(names)
}

impl<'a> Wholes<'a> {
    /// The literals that are the whole of one of these rules.
    pub fn new(alloc: Global, rules: Vec<&'a LexerRule>) -> Result<Wholes<'a>, AllocError>
        ensures { IfOk result (λ wholes. map (λ r. r.now) wholes.rules.items ≡ map (λ r. r.now) rules.entry.items) }
    {
        let names = names_of(alloc, rules.as_slice())?;
        Ok(Wholes { rules, names })
    }

    /// The name of the rule whose token a literal for these characters names.
    pub fn named_rule(&self, characters: &[char]) -> Option<&'a str>
        ensures { option_map (λ n. n.now) result ≡ named_rule (map (λ r. r.now) self.now.rules.items) characters.now }
    {
        match self.names.get(characters) {
            Some(only) => *only,
            None => None,
        }
    }

    /// The literal that names the token of a rule: the rule alone is it.
    pub fn literal_of<'s>(&self, rule: &'s LexerRule) -> Option<&'s Literal>
        ensures { option_map (λ l. l.now) result ≡ rule_literal (map (λ r. r.now) self.now.rules.items) rule.now }
    {
        match default_literal(rule) {
            Some(literal) => match self.named_rule(literal.characters.as_slice()) {
                Some(_) => Some(literal),
                None => None,
            },
            None => None,
        }
    }
}
