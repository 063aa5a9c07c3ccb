// The rules of a grammar in order.
ghost use Rattle.std.specs.Prelude.{◌≡◌, IfOk, map};
ghost use Rattle.g4_source.specs.Rules.{lexer_rules, parser_rules};
ghost use Rattle.g4_source.specs.Views.{rule_view};

use crate::{Atom, LexerRule, ParserRule, Rule};
use std::alloc::{AllocError, Global};

/// A rule in place.
#[derive(Clone, Copy)]
pub enum RuleView<'a> {
    Parser(&'a ParserRule<Atom>),
    Lexer(&'a LexerRule),
}

/// The rule in place.
fn view_of(rule: &Rule) -> RuleView<'_>
    ensures { rule_view result ≡ rule.now }
{
    match rule {
        Rule::Parser(rule) => RuleView::Parser(rule),
        Rule::Lexer(rule) => RuleView::Lexer(rule),
    }
}

/// The rules in place.
///
/// # Errors
/// No memory.
pub fn views_of(alloc: Global, rules: &[Rule]) -> Result<Vec<RuleView<'_>>, AllocError>
    ensures { IfOk result (λ found. map rule_view found.items ≡ rules.now) }
{
    let mut found = Vec::new(alloc);
    for rule in rules {
        found.push(view_of(rule))?;
    }
    Ok(found)
}

/// The parser rules in order.
pub fn parser_rules<'a>(
    alloc: Global,
    rules: &[RuleView<'a>],
) -> Result<Vec<&'a ParserRule<Atom>>, AllocError>
    ensures { IfOk result (λ found. map (λ r. r.now) found.items ≡ parser_rules (map rule_view rules.now)) }
{
    let mut found = Vec::new(alloc);
    for rule in rules {
        match rule {
            RuleView::Parser(rule) => found.push(*rule)?,
            RuleView::Lexer(_) => {}
        }
    }
    Ok(found)
}

/// The lexer rules in order.
pub fn lexer_rules<'a>(
    alloc: Global,
    rules: &[RuleView<'a>],
) -> Result<Vec<&'a LexerRule>, AllocError>
    ensures { IfOk result (λ found. map (λ r. r.now) found.items ≡ lexer_rules (map rule_view rules.now)) }
{
    let mut found = Vec::new(alloc);
    for rule in rules {
        match rule {
            RuleView::Parser(_) => {}
            RuleView::Lexer(rule) => found.push(*rule)?,
        }
    }
    Ok(found)
}
