// What types are given to in a grammar, in order.
ghost use Rattle.std.specs.Prelude.{◌≡◌, ◌++◌, IfOk, OnOk, map, option_map};
ghost use Rattle.std.specs.List.{filter_map};
ghost use Rattle.g4_vocab.specs.Numbering.{literal_token, rule_token, token_name, wanted};
ghost use Rattle.g4_vocab.specs.Tables.{reference_of, wanted_of};

use crate::named::Named;
use crate::references::Reference;
use crate::wholes::Wholes;
use g4_source::{LexerRule, Literal};
use std::alloc::{AllocError, Global};

/// What a type is given to.
#[derive(Clone, Copy)]
pub struct WantedToken<'a> {
    /// The name, or the literal that needs a token of its own.
    pub token: Reference<'a>,
    /// The literal that names the token of this name too.
    pub literal: Option<&'a Literal>,
}

/// Adds the literals that need a token of their own.
fn push_literals<'a>(
    found: &mut Vec<WantedToken<'a>>,
    literals: &[&'a Literal],
) -> Result<(), AllocError>
    ensures { OnOk result (map wanted_of found.new.items
        ≡ map wanted_of found.old.items ++ map literal_token (map (λ l. l.now) literals.now)) }
{
    for literal in literals {
        found.push(WantedToken {
            token: Reference::Literal(literal),
            literal: None,
        })?;
    }
    Ok(())
}

/// Adds the names of lexer rules, each with the literal that names its token.
fn push_rules<'a>(
    found: &mut Vec<WantedToken<'a>>,
    wholes: &Wholes<'_>,
    rules: &[&'a LexerRule],
) -> Result<(), AllocError>
    ensures { OnOk result (map wanted_of found.new.items
        ≡ map wanted_of found.old.items ++ map (rule_token (map (λ r. r.now) wholes.now.rules.items)) (map (λ r. r.now) rules.now)) }
{
    for rule in rules {
        found.push(WantedToken {
            token: Reference::Token(rule.name.as_str()),
            literal: wholes.literal_of(rule),
        })?;
    }
    Ok(())
}

/// The name that the token is, if it is one that has a type: `EOF` has none.
fn token_name(token: Reference<'_>) -> Option<WantedToken<'_>>
    ensures { option_map wanted_of result ≡ token_name (reference_of token.entry) }
{
    match token {
        Reference::Token(name) => {
            if name == "EOF" {
                return None;
            }
            Some(WantedToken {
                token,
                literal: None,
            })
        }
        Reference::Literal(_) => None,
    }
}

/// Adds the names among tokens.
fn push_names<'a>(
    found: &mut Vec<WantedToken<'a>>,
    tokens: &[Reference<'a>],
) -> Result<(), AllocError>
    ensures { OnOk result (map wanted_of found.new.items
        ≡ map wanted_of found.old.items ++ filter_map token_name (map reference_of tokens.now)) }
{
    for token in tokens {
        if let Some(name) = token_name(*token) {
            found.push(name)?;
        }
    }
    Ok(())
}

/// What types are given to in a grammar of these lexer rules, where these literals need tokens of their own and these tokens are named.
pub fn wanted_in<'a>(
    alloc: Global,
    wholes: &Wholes<'a>,
    own: &[&'a Literal],
    named: &Named<'a>,
) -> Result<Vec<WantedToken<'a>>, AllocError>
    ensures { IfOk result (λ found. map wanted_of found.items ≡ wanted (map (λ r. r.now) wholes.now.rules.items) (map (λ l. l.now) own.now)
        (map reference_of named.now.declared.items) (map reference_of named.now.tokens.items)
        (map reference_of named.now.commanded.items)) }
{
    let mut found = Vec::new(alloc);
    push_literals(&mut found, own)?;
    push_rules(&mut found, wholes, wholes.rules.as_slice())?;
    push_names(&mut found, named.declared.as_slice())?;
    push_names(&mut found, named.tokens.as_slice())?;
    push_names(&mut found, named.commanded.as_slice())?;
    Ok(found)
}
