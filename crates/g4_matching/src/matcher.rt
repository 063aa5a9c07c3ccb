// The match at the front of a text.
ghost use Rattle.std.specs.Prelude.{◌≡◌, IfOk, slice_index_or, []};
ghost use Rattle.g4_ordered.specs.Network.{IsLexable};
ghost use Rattle.g4_ordered.specs.Starts.{starts_of};
ghost use Rattle.g4_matching.specs.Matcher.{IsFound};

use crate::automaton::Automaton;
use crate::found::Match;
use crate::modes::Modes;
use g4_base::Sequence;
use g4_ordered::{LexerNetwork, Start};
use std::alloc::{AllocError, Global};
use std::marker::Model;

/// What finds matches by a network, in its modes. The lists that it makes are learned: a text that takes known ways alone takes no
/// memory. Contracts see the network and, for each mode, where a match may begin.
#[derive(Drop)]
pub struct Matcher<'a> {
    modes: Modes<'a>,
    automaton: Automaton,
}

impl<'a> Model for Matcher<'a> {
    ghost use Rattle.std.specs.Prelude.{List};
    ghost use Rattle.g4_ordered.specs.declared.start.Start.{Start as Beginning};
    ghost use Rattle.g4_ordered.specs.Network.{LexerNetwork as Net, IsLexable};
    ghost use Rattle.g4_matching.specs.Automaton.{IsSound};

    ghost Value = { Net × List (List Beginning) };

    ghost view = { λ m. (m.modes.net.now, m.modes.starts.now) };

    ghost invariant = { λ m. IsLexable m.modes.net.now × IsSound m.modes m.automaton };
}

impl<'a> Matcher<'a> {
    /// A matcher by a network, and for each of its modes the outer alternatives of the rules, in order, with which a match may begin.
    ///
    /// # Errors
    /// No memory.
    pub fn new(
        alloc: Global,
        net: &'a LexerNetwork,
        modes: &'a [Sequence<Start>],
    ) -> Result<Matcher<'a>, AllocError>
        requires { IsLexable net.now }
        ensures { IfOk result (λ matcher. matcher ≡ (net.now, modes.now)) }
    {
        let modes = Modes { net, starts: modes };
        let automaton = Automaton::new(alloc, &modes)?;
        Ok(Matcher { modes, automaton })
    }

    /// Another matcher by the same network and modes, which has learned nothing. The classes of characters are not found again.
    ///
    /// # Errors
    /// No memory.
    pub fn another(&self, alloc: Global) -> Result<Matcher<'a>, AllocError>
        ensures { IfOk result (λ matcher. matcher ≡ self.now) }
    {
        let automaton = self.automaton.another(alloc, &self.modes)?;
        Ok(Matcher {
            modes: self.modes,
            automaton,
        })
    }

    /// The match at the front of the text in a mode: the longest, of the least rule, and of its first alternative in the list. In a
    /// mode that is none there is no match.
    ///
    /// # Errors
    /// No memory.
    pub fn longest_match(&mut self, mode: u32, text: &[char]) -> Result<Option<Match>, AllocError>
        ensures same { self.new ≡ self.old }
        ensures found { IfOk result (IsFound self.old.0 (starts_of (slice_index_or self.old.1 mode [])) text.now) }
    {
        let found = self.automaton.longest_match(&self.modes, mode, text)?;
        Ok(found)
    }
}
