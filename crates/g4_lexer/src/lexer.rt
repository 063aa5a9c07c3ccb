// What a lexer goes by.
ghost use Rattle.std.specs.Prelude.{◌≡◌, IfOk};
ghost use Rattle.g4_lexer.specs.Lexers.{commands_of, matched_by, type_of};
ghost use Rattle.g4_ordered.specs.Network.{IsLexable};

use crate::command::LexerCommand;
use g4_base::Sequence;
use g4_matching::Matcher;
use g4_ordered::{LexerNetwork, Start};
use std::alloc::{AllocError, Global};

/// What a lexer goes by: its network, and what is known of its modes and rules by their numbers.
#[derive(Drop)]
pub struct Lexer {
    pub net: LexerNetwork,
    /// For each mode the places where a match may begin, those that win a tie first. A file begins in mode 0.
    pub modes: Sequence<Sequence<Start>>,
    /// For each rule the type of its tokens.
    pub types: Sequence<u32>,
    /// For each rule the commands of its outer alternatives, which count from 1.
    pub commands: Sequence<Sequence<Sequence<LexerCommand>>>,
}

impl Lexer {
    /// A matcher for the files of this lexer, which has learned nothing yet.
    ///
    /// # Errors
    /// No memory.
    pub fn matcher<'a>(&'a self, alloc: Global) -> Result<Matcher<'a>, AllocError>
        requires { IsLexable self.now.net }
        ensures { IfOk result (λ matcher. matcher ≡ matched_by self.now) }
    {
        let matcher = Matcher::new(alloc, &self.net, self.modes.as_slice())?;
        Ok(matcher)
    }

    /// The type of a rule's tokens; 0 where it has none.
    pub(crate) fn rule_type(&self, rule: u32) -> u32
        ensures { result ≡ type_of self.now rule }
    {
        match self.types.as_slice().get(rule as usize) {
            Some(symbol) => *symbol,
            None => 0,
        }
    }

    /// The commands of a rule's alternative; none where there is no such alternative.
    pub(crate) fn commands(&self, rule: u32, alternative: u32) -> &[LexerCommand]
        ensures { result.now ≡ commands_of self.now rule alternative }
    {
        if alternative == 0 {
            return &[];
        }
        let Some(alternatives) = self.commands.as_slice().get(rule as usize) else {
            return &[];
        };
        match alternatives.as_slice().get(alternative as usize - 1) {
            Some(commands) => commands.as_slice(),
            None => &[],
        }
    }
}
