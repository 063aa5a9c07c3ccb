// The rules of a lexer from the rules of a grammar as they are written.
ghost use Rattle.std.specs.Prelude.{◌≡◌, ◌≤◌, ◌++◌, All, IfOk, [], length, map};
ghost use Rattle.g4_tokens.specs.declared.symbol.TheConstants.{MOST_TYPES};
ghost use Rattle.g4_source.specs.Blocks.{LexerRulesAreFull, RulesAreFull};
ghost use Rattle.g4_source.specs.Rules.{lexer_rules};
ghost use Rattle.g4_lexer_rules.specs.NetworkRules.{all_rules};
ghost use Rattle.g4_grammar.specs.Written.{RulesAreDefined, RulesCanRun};
ghost use Rattle.g4_lexer_rules.specs.Rules.{IsLexerRulesOf};
ghost use Rattle.g4_lexer_rules.specs.Tables.{tables_of};
ghost use Rattle.g4_lexer_rules.specs.Types.{type_by_names};

use crate::checked_lexer::CheckedLexer;
use crate::lexer_rules::LexerRules;
use crate::literals::rules_of_literals;
use crate::numbers::symbols_of;
use crate::tables::tables_of;
use g4_base::Sequence;
use g4_grammar::{TokenLiteral, TokenName};
use g4_names::Places;
use g4_source::{LexerRule, Rule, Source};
use std::alloc::{AllocError, Global};

/// The lexer rules among these rules, fragments too.
fn lexer_rules(alloc: Global, rules: Vec<Rule>) -> Result<Vec<LexerRule>, AllocError>
    ensures { IfOk result (λ found. found.items ≡ lexer_rules rules.items) }
{
    let mut found = Vec::new(alloc);
    for rule in rules {
        match rule {
            Rule::Parser(_) => {}
            Rule::Lexer(rule) => found.push(rule)?,
        }
    }
    Ok(found)
}

/// The type of a lexer rule by its name: a fragment has none.
fn type_of(symbols: &Places<'_>, rule: &LexerRule) -> u32
    ensures { result ≡ type_by_names symbols.now rule.now }
{
    if rule.fragment {
        return 0;
    }
    symbols.place_of(rule.name.as_str()).unwrap_or(0)
}

/// The types of the literals, and then those of the lexer rules by their names.
fn types_of(
    alloc: Global,
    symbols: &Places<'_>,
    literals: &[TokenLiteral],
    rules: &[LexerRule],
) -> Result<Sequence<u32>, AllocError>
    ensures { IfOk result (λ types. types ≡ map (λ token. token.symbol) literals.now ++ map (type_by_names symbols.now) rules.now) }
{
    let mut types = Vec::new(alloc);
    for token in literals {
        types.push(token.symbol)?;
    }
    'rules: for rule in rules {
        types.push(type_of(symbols, rule))?;
    }
    Ok(Sequence::new(types))
}

/// The rules of the lexer of these rules, where token types have these names, and these literals of their own.
fn gathered(
    alloc: Global,
    rules: Sequence<Rule>,
    names: &[TokenName],
    literals: Sequence<TokenLiteral>,
) -> Result<LexerRules, AllocError>
    ensures { IfOk result (IsLexerRulesOf names.now literals rules) }
{
    let rules = lexer_rules(alloc, rules.into_vec())?;
    let symbols = symbols_of(alloc, names)?;
    let types = types_of(alloc, &symbols, literals.as_slice(), rules.as_slice())?;
    let literals = rules_of_literals(alloc, literals.into_vec())?;
    Ok(LexerRules {
        literals: Sequence::new(literals),
        rules: Sequence::new(rules),
        types,
    })
}

/// The rules of the lexer of a grammar's rules, where token types have these names, and these literals of their own: first the rules of
/// the literals in order, and then the lexer rules of all modes in order.
///
/// # Errors
/// No memory.
fn lexer_rules_of(
    alloc: Global,
    rules: Sequence<Rule>,
    names: &[TokenName],
    literals: Sequence<TokenLiteral>,
) -> Result<LexerRules, AllocError>
    ensures rules { IfOk result (IsLexerRulesOf names.now literals rules) }
    ensures each { IfOk result (λ made. length made.types ≡ length (all_rules made.literals made.rules)) }
    ensures low { All (λ name. name.symbol ≤ MOST_TYPES) names.now → All (λ literal. literal.symbol ≤ MOST_TYPES) literals
        → IfOk result (λ made. All (λ type. type ≤ MOST_TYPES) made.types) }
    ensures full { RulesAreFull rules → IfOk result (λ made. LexerRulesAreFull made.literals × LexerRulesAreFull made.rules) }
{
    let made = gathered(alloc, rules, names, literals)?;
    Ok(made)
}

/// The rules of the lexer of a grammar without fault, where token types have these names, and these literals of their own; and what the
/// commands name.
///
/// # Errors
/// No memory.
pub fn checked_lexer_of(
    alloc: Global,
    source: Source,
    names: Sequence<TokenName>,
    literals: Sequence<TokenLiteral>,
) -> Result<CheckedLexer, AllocError>
    requires low_names { All (λ name. name.symbol ≤ MOST_TYPES) names }
    requires low_literals { All (λ literal. literal.symbol ≤ MOST_TYPES) literals }
    requires full { RulesAreFull source.rules }
    requires defined { RulesAreDefined source.rules }
    requires run { RulesCanRun source.rules }
    ensures rules { IfOk result (λ made. IsLexerRulesOf names literals source.rules made.0) }
    ensures tables { IfOk result (λ made. made.1 ≡ tables_of source names) }
{
    let tables = tables_of(alloc, &source, names)?;
    let rules = lexer_rules_of(alloc, source.rules, tables.types.as_slice(), literals)?;
    Ok(CheckedLexer::new(rules, tables))
}
