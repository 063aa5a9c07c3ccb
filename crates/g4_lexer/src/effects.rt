// What the commands of a match do.
ghost use Rattle.std.specs.Prelude.{◌≡◌, [], Some};
ghost use Rattle.g4_lexer.specs.Commands.{CarriesOut, after_command, after_commands};

use crate::command::LexerCommand;
use crate::fault::LexFault;
use crate::mode_stack::ModeStack;
use g4_base::Place;
use std::alloc::Global;

/// What becomes of a match.
#[derive(Clone, Copy)]
pub(crate) enum Fate {
    /// It is dropped, and what was kept before it too.
    Dropped,
    /// Its text is kept, and the token goes on with the next match.
    Kept,
    /// It ends a token of this type.
    Token(u32),
}

/// What the commands that are carried out have done: the modes, the channel, and what becomes of the match.
#[derive(Drop)]
pub(crate) struct Effects {
    pub mode: u32,
    pub pushed: ModeStack,
    pub channel: u32,
    pub fate: Fate,
}

impl Effects {
    /// In the first mode, with nothing pushed.
    pub fn new(alloc: Global) -> Effects
        ensures mode { result.mode ≡ 0 }
        ensures pushed { result.pushed ≡ [] }
    {
        Effects {
            mode: 0,
            pushed: ModeStack::new(alloc),
            channel: 0,
            fate: Fate::Dropped,
        }
    }

    /// Before the commands of a match: its token is on this channel and has this type.
    pub fn begin(&mut self, channel: u32, symbol: u32)
        ensures { self.new ≡ record self.old { channel = channel; fate = Fate.Token symbol } }
    {
        self.channel = channel;
        self.fate = Fate::Token(symbol);
    }

    /// Carries out a command of the match that begins at the place.
    ///
    /// # Errors
    /// `EmptyModeStack` where there is no mode to go back to, or no memory.
    fn carry_out(&mut self, command: LexerCommand, place: Place) -> Result<(), LexFault>
        ensures { CarriesOut (after_command command self.old) place self.new result }
    {
        match command {
            LexerCommand::Skip => self.fate = Fate::Dropped,
            LexerCommand::More => self.fate = Fate::Kept,
            LexerCommand::Type(symbol) => self.fate = Fate::Token(symbol),
            LexerCommand::Channel(channel) => self.channel = channel,
            LexerCommand::Mode(mode) => self.mode = mode,
            LexerCommand::PushMode(mode) => {
                self.pushed.push(self.mode)?;
                self.mode = mode;
            }
            LexerCommand::PopMode => match self.pushed.pop() {
                Some(mode) => self.mode = mode,
                None => return Err(LexFault::EmptyModeStack(place)),
            },
        }
        Ok(())
    }

    /// Carries out the commands of the match that begins at the place, in their order.
    ///
    /// # Errors
    /// `EmptyModeStack` where there is no mode to go back to, or no memory.
    pub fn carry_out_all(&mut self, commands: &[LexerCommand], place: Place) -> Result<(), LexFault>
        ensures { CarriesOut (after_commands commands.now self.old) place self.new result }
    {
        for command in commands {
            self.carry_out(*command, place)?;
        }
        Ok(())
    }
}
