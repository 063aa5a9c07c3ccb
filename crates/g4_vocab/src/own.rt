// The literals that need tokens of their own.
ghost use Rattle.std.specs.Prelude.{◌≡◌, IfOk, map, option_map};
ghost use Rattle.g4_vocab.specs.Numbering.{needs_own, own_literals};
ghost use Rattle.g4_vocab.specs.Tables.{reference_of};

use crate::references::Reference;
use crate::wholes::Wholes;
use g4_source::Literal;
use std::alloc::{AllocError, Global};
use std::collections::BTreeSet;

/// The literal that the token is, if it names no lexer rule's token.
fn needs_own<'a>(wholes: &Wholes<'_>, token: Reference<'a>) -> Option<&'a Literal>
    ensures { option_map (λ l. l.now) result ≡ needs_own (map (λ r. r.now) wholes.now.rules.items) (reference_of token.entry) }
{
    match token {
        Reference::Token(_) => None,
        Reference::Literal(literal) => match wholes.named_rule(literal.characters.as_slice()) {
            Some(_) => None,
            None => Some(literal),
        },
    }
}

/// The literals among tokens that name no lexer rule's token, each where it is first.
pub fn own_literals<'a>(
    alloc: Global,
    wholes: &Wholes<'_>,
    tokens: &[Reference<'a>],
) -> Result<Vec<&'a Literal>, AllocError>
    ensures { IfOk result (λ own. map (λ l. l.now) own.items
        ≡ own_literals (map (λ r. r.now) wholes.now.rules.items) (map reference_of tokens.now)) }
{
    let mut seen = BTreeSet::new(alloc);
    let mut own = Vec::new(alloc);
    for token in tokens {
        if let Some(literal) = needs_own(wholes, *token) {
            if seen.insert(literal.characters.as_slice())? {
                own.push(literal)?;
            }
        }
    }
    Ok(own)
}
