// The tokens that commands of lexer rules name, as `type(T)` names T, in order of the text.
ghost use Rattle.std.specs.Prelude.{◌≡◌, ◌++◌, IfOk, OnOk, map, option_map};
ghost use Rattle.std.specs.List.{flat_map};
ghost use Rattle.g4_source.specs.Rules.{lexer_rules};
ghost use Rattle.g4_vocab.specs.Numbering.{all_commanded, commanded_by, commanded_token};
ghost use Rattle.g4_vocab.specs.Tables.{reference_of};

use crate::references::Reference;
use g4_source::{Argument, Command, LexerAlternative, LexerRule, Rule};
use std::alloc::{AllocError, Global};

/// The token that the command names: none but a `type` with a name names one.
fn commanded_token(command: &Command) -> Option<Reference<'_>>
    ensures { option_map reference_of result ≡ commanded_token command.now }
{
    if command.name.text.as_str() != "type" {
        return None;
    }
    match &command.argument {
        Some(Argument::Name(name)) => Some(Reference::Token(name.as_str())),
        _ => None,
    }
}

/// Adds the tokens that commands of an alternative name.
fn push_alternative<'a>(
    found: &mut Vec<Reference<'a>>,
    alternative: &'a LexerAlternative,
) -> Result<(), AllocError>
    ensures { OnOk result (map reference_of found.new.items ≡ map reference_of found.old.items ++ commanded_by alternative.now) }
{
    for command in alternative.commands.as_slice() {
        if let Some(token) = commanded_token(command) {
            found.push(token)?;
        }
    }
    Ok(())
}

/// Adds the tokens that commands of a rule name.
fn push_rule<'a>(found: &mut Vec<Reference<'a>>, rule: &'a LexerRule) -> Result<(), AllocError>
    ensures { OnOk result (map reference_of found.new.items
        ≡ map reference_of found.old.items ++ flat_map commanded_by rule.now.alternatives) }
{
    for alternative in rule.alternatives.as_slice() {
        push_alternative(found, alternative)?;
    }
    Ok(())
}

/// The tokens that commands of the lexer rules among these name, of those with `fragment` too.
pub fn commanded_of(alloc: Global, rules: &[Rule]) -> Result<Vec<Reference<'_>>, AllocError>
    ensures { IfOk result (λ found. map reference_of found.items ≡ all_commanded (lexer_rules rules.now)) }
{
    let mut found = Vec::new(alloc);
    for rule in rules {
        if let Rule::Lexer(lexer) = rule {
            push_rule(&mut found, lexer)?;
        }
    }
    Ok(found)
}
