// The commands of all rules.
ghost use Rattle.std.specs.Prelude.{◌≡◌, ◌≤◌, All, IfOk, map};
ghost use Rattle.std.specs.List.{filter_map};
ghost use Rattle.g4_tokens.specs.declared.symbol.TheConstants.{MOST_TYPES};
ghost use Rattle.g4_lexer.specs.Lexers.{GivesTokenType};
ghost use Rattle.g4_lexer_rules.specs.Commands.{command_of};

use crate::numbers::Numbers;
use crate::tables::CommandTables;
use g4_base::Sequence;
use g4_lexer::LexerCommand;
use g4_source::Command;
use std::alloc::{AllocError, Global};

/// What the commands of an alternative do, in order.
fn commands_of(
    alloc: Global,
    numbers: &Numbers<'_>,
    commands: &[Command],
) -> Result<Sequence<LexerCommand>, AllocError>
    ensures { IfOk result (λ made. made ≡ filter_map (command_of numbers.now.tables.now) commands.now) }
{
    let mut made = Vec::new(alloc);
    for command in commands {
        if let Some(done) = numbers.command_of(command) {
            made.push(done)?;
        }
    }
    Ok(Sequence::new(made))
}

/// The same of each alternative of a rule.
fn rule_commands_of(
    alloc: Global,
    numbers: &Numbers<'_>,
    alternatives: &[Sequence<Command>],
) -> Result<Sequence<Sequence<LexerCommand>>, AllocError>
    ensures { IfOk result (λ made. made ≡ map (filter_map (command_of numbers.now.tables.now)) alternatives.now) }
{
    let mut made = Vec::new(alloc);
    for commands in alternatives {
        made.push(commands_of(alloc, numbers, commands.as_slice())?)?;
    }
    Ok(Sequence::new(made))
}

/// The same of each rule.
fn all_commands_of(
    alloc: Global,
    numbers: &Numbers<'_>,
    rules: &[Sequence<Sequence<Command>>],
) -> Result<Sequence<Sequence<Sequence<LexerCommand>>>, AllocError>
    ensures { IfOk result (λ made. made ≡ map (map (filter_map (command_of numbers.now.tables.now))) rules.now) }
{
    let mut made = Vec::new(alloc);
    for alternatives in rules {
        made.push(rule_commands_of(alloc, numbers, alternatives.as_slice())?)?;
    }
    Ok(Sequence::new(made))
}

/// What the commands do, for each rule and each of its alternatives. What is no command does nothing.
///
/// # Errors
/// No memory.
pub(crate) fn lexer_commands(
    alloc: Global,
    tables: &CommandTables,
    commands: &[Sequence<Sequence<Command>>],
) -> Result<Sequence<Sequence<Sequence<LexerCommand>>>, AllocError>
    ensures made { IfOk result (λ made. made ≡ map (map (filter_map (command_of tables.now))) commands.now) }
    ensures types { All (λ t. t.symbol ≤ MOST_TYPES) tables.now.types → IfOk result (All (All (All GivesTokenType))) }
{
    let numbers = Numbers::new(alloc, tables)?;
    let made = all_commands_of(alloc, &numbers, commands)?;
    Ok(made)
}
