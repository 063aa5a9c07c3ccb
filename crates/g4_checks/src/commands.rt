// The commands of lexer rules in order, and the first that is none.
ghost use Rattle.std.specs.Prelude.{◌≡◌, ◌++◌, IfOk, OnOk, map, option_map};
ghost use Rattle.std.specs.List.{flat_map};
ghost use Rattle.g4_checks.specs.References.{commands_in};
ghost use Rattle.g4_checks.specs.Commands.{IsUnknownCommand, all_commands, is_command, rule_commands};
ghost use Rattle.g4_source.specs.First.{FindsFirst};
ghost use Rattle.g4_source.specs.Views.{rule_view};
ghost use Rattle.g4_checks.specs.Views.{AreParts};

use crate::modes::takes_mode;
use crate::names::copied;
use crate::parts::Parts;
use g4_base::Text;
use g4_source::{Argument, Command, LexerRule, RuleView, Source};
use std::alloc::{AllocError, Global};

/// Adds the commands of an alternative.
fn push_commands<'a>(
    found: &mut Vec<&'a Command>,
    commands: &'a [Command],
) -> Result<(), AllocError>
    ensures { OnOk result (map (λ c. c.now) found.new.items ≡ map (λ c. c.now) found.old.items ++ commands.now) }
{
    for command in commands {
        found.push(command)?;
    }
    Ok(())
}

/// Adds the commands of a lexer rule.
fn push_lexer<'a>(found: &mut Vec<&'a Command>, rule: &'a LexerRule) -> Result<(), AllocError>
    ensures { OnOk result (map (λ c. c.now) found.new.items
        ≡ map (λ c. c.now) found.old.items ++ flat_map (λ a. a.commands) rule.now.alternatives) }
{
    for alternative in rule.alternatives.as_slice() {
        push_commands(found, alternative.commands.as_slice())?;
    }
    Ok(())
}

/// Adds the commands of a rule.
fn push_rule<'a>(found: &mut Vec<&'a Command>, rule: RuleView<'a>) -> Result<(), AllocError>
    ensures { OnOk result (map (λ c. c.now) found.new.items ≡ map (λ c. c.now) found.old.items ++ rule_commands (rule_view rule.entry)) }
{
    if let RuleView::Lexer(rule) = rule {
        push_lexer(found, rule)?;
    }
    Ok(())
}

/// The commands of the rules in order.
pub fn commands_of<'a>(
    alloc: Global,
    rules: &[RuleView<'a>],
) -> Result<Vec<&'a Command>, AllocError>
    ensures { IfOk result (λ found. map (λ c. c.now) found.items ≡ all_commands (map rule_view rules.now)) }
{
    let mut found = Vec::new(alloc);
    for rule in rules {
        push_rule(&mut found, *rule)?;
    }
    Ok(found)
}

/// Whether there is a command of this name that takes such an argument, or none.
fn is_command(name: &str, argument: &Option<Argument>) -> bool
    ensures { result ≡ is_command name.now argument.now }
{
    match argument {
        None => name == "skip" || name == "more" || name == "popMode",
        Some(Argument::Name(_)) => name == "type" || name == "channel" || takes_mode(name),
        Some(Argument::Number(_)) => name == "channel",
    }
}

/// The name of the first command that is none.
fn first_unknown<'a>(commands: &[&'a Command]) -> Option<&'a str>
    ensures { FindsFirst IsUnknownCommand (map (λ c. c.now) commands.now) (option_map (λ n. n.now) result) }
{
    for command in commands {
        let name = command.name.text.as_str();
        if !is_command(name, &command.argument) {
            return Some(name);
        }
    }
    None
}

/// The name of the first command that is none.
///
/// # Errors
/// No memory.
pub fn first_unknown_command(
    alloc: Global,
    source: &Source,
    parts: &Parts<'_>,
) -> Result<Option<Text>, AllocError>
    requires { AreParts source.now parts.now }
    ensures { IfOk result (FindsFirst IsUnknownCommand (commands_in source.now)) }
{
    let found = copied(alloc, first_unknown(parts.commands.as_slice()))?;
    Ok(found)
}
