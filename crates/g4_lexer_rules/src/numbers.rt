// The numbers of what the arguments of commands name.
ghost use Rattle.std.specs.Prelude.{◌≡◌, IfOk};
ghost use Rattle.g4_names.specs.Places.{ArePlaces};
ghost use Rattle.g4_lexer_rules.specs.Commands.{AreSymbols, bare_command, command_of, named_command, numbered_command, symbol_of};

use crate::digits::number_of;
use crate::tables::CommandTables;
use g4_grammar::TokenName;
use g4_lexer::LexerCommand;
use g4_names::{Places, places_of};
use g4_source::{Argument, Command};
use g4_tokens::EOF;
use std::alloc::{AllocError, Global};

/// The numbers of what the arguments of commands name, found in the time of a few comparisons.
#[derive(Drop)]
pub struct Numbers<'a> {
    tables: &'a CommandTables,
    symbols: Places<'a>,
    channels: Places<'a>,
    modes: Places<'a>,
    ghost symbols_are: { AreSymbols tables.now.types symbols },
    ghost channels_are: { ArePlaces tables.now.channels channels },
    ghost modes_are: { ArePlaces tables.now.modes modes },
}

/// The symbol of the first of each name.
pub(crate) fn symbols_of(alloc: Global, types: &[TokenName]) -> Result<Places<'_>, AllocError>
    ensures { IfOk result (λ symbols. AreSymbols types.now symbols) }
{
    let mut symbols = Places::new(alloc);
    for token in types {
        symbols.add(token.name.as_str(), token.symbol)?;
    }
    Ok(symbols)
}

/// What a command of this name without an argument does.
fn bare_command(name: &str) -> Option<LexerCommand>
    ensures { result ≡ bare_command name.now }
{
    match name {
        "skip" => Some(LexerCommand::Skip),
        "more" => Some(LexerCommand::More),
        "popMode" => Some(LexerCommand::PopMode),
        _ => None,
    }
}

/// What a command of this name does with a number.
fn numbered_command(name: &str, digits: &str) -> Option<LexerCommand>
    ensures { result ≡ numbered_command name.now digits.now }
{
    match name {
        "channel" => Some(LexerCommand::Channel(number_of(digits)?)),
        _ => None,
    }
}

impl<'a> Numbers<'a> {
    /// The numbers by these tables.
    ///
    /// # Errors
    /// No memory.
    pub fn new(alloc: Global, tables: &'a CommandTables) -> Result<Numbers<'a>, AllocError>
        ensures { IfOk result (λ numbers. numbers.tables.now ≡ tables.now) }
    {
        let symbols = symbols_of(alloc, tables.types.as_slice())?;
        let channels = places_of(alloc, tables.channels.as_slice())?;
        let modes = places_of(alloc, tables.modes.as_slice())?;
        Ok(Numbers {
            tables,
            symbols,
            channels,
            modes,
        })
    }

    /// The symbol of a token name, if it has one.
    fn symbol_of(&self, name: &str) -> Option<u32>
        ensures { result ≡ symbol_of self.now.tables.now.types name.now }
    {
        if name == "EOF" {
            return Some(EOF);
        }
        self.symbols.place_of(name)
    }

    /// What a command of this name does with a name.
    fn named_command(&self, name: &str, argument: &str) -> Option<LexerCommand>
        ensures { result ≡ named_command self.now.tables.now name.now argument.now }
    {
        match name {
            "type" => Some(LexerCommand::Type(self.symbol_of(argument)?)),
            "channel" => Some(LexerCommand::Channel(self.channels.place_of(argument)?)),
            "mode" => Some(LexerCommand::Mode(self.modes.place_of(argument)?)),
            "pushMode" => Some(LexerCommand::PushMode(self.modes.place_of(argument)?)),
            _ => None,
        }
    }

    /// What a command does, if it is one.
    pub fn command_of(&self, command: &Command) -> Option<LexerCommand>
        ensures { result ≡ command_of self.now.tables.now command.now }
    {
        let name = command.name.text.as_str();
        match &command.argument {
            None => bare_command(name),
            Some(Argument::Name(argument)) => self.named_command(name, argument.as_str()),
            Some(Argument::Number(digits)) => numbered_command(name, digits.as_str()),
        }
    }
}
