// The rules of the literals that have tokens of their own.
ghost use Rattle.std.specs.Prelude.{◌≡◌, IfOk, map};
ghost use Rattle.g4_lexer_rules.specs.Rules.{literal_alternative, rule_of_literal};

use g4_base::{Sequence, Text};
use g4_grammar::TokenLiteral;
use g4_source::{Atom, AtomKind, Element, Elements, LexerAlternative, LexerRule, Literal};
use std::alloc::{AllocError, Global};

/// An alternative that is a literal.
fn literal_alternative(alloc: Global, literal: Literal) -> Result<LexerAlternative, AllocError>
    ensures { IfOk result (λ alternative. alternative ≡ literal_alternative literal) }
{
    let atom = Atom {
        label: None,
        kind: AtomKind::Literal(literal),
    };
    let mut elements = Vec::new(alloc);
    elements.push(Element::Atom(atom))?;
    Ok(LexerAlternative {
        elements: Elements::new(elements),
        commands: Sequence::new(Vec::new(alloc)),
    })
}

/// What makes the tokens of a literal, as a lexer rule without `fragment`. It has the name `EOF`, with which no reference calls a rule.
fn rule_of_literal(alloc: Global, token: TokenLiteral) -> Result<LexerRule, AllocError>
    ensures { IfOk result (λ rule. rule ≡ rule_of_literal token) }
{
    let alternative = literal_alternative(alloc, token.literal)?;
    let mut alternatives = Vec::new(alloc);
    alternatives.push(alternative)?;
    Ok(LexerRule {
        mode: None,
        fragment: false,
        name: Text::copy_of(alloc, "EOF")?,
        alternatives: Sequence::new(alternatives),
    })
}

/// What makes the tokens of these literals.
pub fn rules_of_literals(
    alloc: Global,
    tokens: Vec<TokenLiteral>,
) -> Result<Vec<LexerRule>, AllocError>
    ensures { IfOk result (λ rules. rules.items ≡ map rule_of_literal tokens.items) }
{
    let mut rules = Vec::new(alloc);
    for token in tokens {
        rules.push(rule_of_literal(alloc, token)?)?;
    }
    Ok(rules)
}
