// The way along learned lists.
ghost use Rattle.std.specs.Prelude.{◌<◌, IfOk, length};
ghost use Rattle.g4_ordered.specs.Network.{IsLexable};
ghost use Rattle.g4_matching.specs.Automaton.{Begins, IsSound, LeadsTo, TellsLast, starts_in};
ghost use Rattle.g4_matching.specs.Listing.{returns_of};
ghost use Rattle.g4_matching.specs.Matcher.{IsFound};

use crate::automaton::Automaton;
use crate::cells::{note, noted};
use crate::found::{Match, best_after};
use crate::modes::Modes;
use crate::rule_end::RuleEnd;
use std::alloc::AllocError;

impl Automaton {
    /// The first list of a mode, which is learned.
    fn learn_first(&mut self, modes: &Modes, mode: u32) -> Result<u32, AllocError>
        requires lexable { IsLexable modes.now.net.now }
        requires sound { IsSound modes.now self.old }
        ensures sound { IsSound modes.now self.new }
        ensures first { IfOk result (Begins modes.now.net.now (starts_in modes.now.starts.now mode) (returns_of self.new.listing)
            self.new.lists.items) }
    {
        self.make_first(modes, mode)?;
        let number = self.learn(modes)?;
        note(self.firsts.as_mut_slice(), mode as usize, number);
        Ok(number)
    }

    /// The first list of a mode.
    fn first(&mut self, modes: &Modes, mode: u32) -> Result<u32, AllocError>
        requires lexable { IsLexable modes.now.net.now }
        requires sound { IsSound modes.now self.old }
        ensures sound { IsSound modes.now self.new }
        ensures first { IfOk result (Begins modes.now.net.now (starts_in modes.now.starts.now mode) (returns_of self.new.listing)
            self.new.lists.items) }
    {
        if let Some(number) = noted(self.firsts.as_slice(), mode as usize) {
            return Ok(number);
        }
        let number = self.learn_first(modes, mode)?;
        Ok(number)
    }

    /// The list after a list, which is learned.
    fn learn_next(&mut self, modes: &Modes, from: u32, character: char) -> Result<u32, AllocError>
        requires lexable { IsLexable modes.now.net.now }
        requires sound { IsSound modes.now self.old }
        requires within { from < length self.old.lists.items }
        ensures sound { IsSound modes.now self.new }
        ensures next { IfOk result (LeadsTo modes.now.net.now character from self.old self.new) }
    {
        self.make_next(modes, from, character, false)?;
        if let Some(number) = self.learn_beside(modes)? {
            self.note_next(modes, from, character, number);
            return Ok(number);
        }
        let number = self.learn_alone(modes)?;
        Ok(number)
    }

    /// The list after a list by a character that is not the last one.
    fn after(&mut self, modes: &Modes, from: u32, character: char) -> Result<u32, AllocError>
        requires lexable { IsLexable modes.now.net.now }
        requires sound { IsSound modes.now self.old }
        requires within { from < length self.old.lists.items }
        ensures sound { IsSound modes.now self.new }
        ensures next { IfOk result (LeadsTo modes.now.net.now character from self.old self.new) }
    {
        if let Some(number) = noted(self.next.as_slice(), self.cell(from, character)) {
            return Ok(number);
        }
        let number = self.learn_next(modes, from, character)?;
        Ok(number)
    }

    /// The end that the list after a list gives, by the last character. Edges that ask that no character is left may be taken there, so
    /// such a list is not learned.
    fn last_end(
        &mut self,
        modes: &Modes,
        from: u32,
        character: char,
    ) -> Result<Option<RuleEnd>, AllocError>
        requires lexable { IsLexable modes.now.net.now }
        requires sound { IsSound modes.now self.old }
        requires within { from < length self.old.lists.items }
        ensures sound { IsSound modes.now self.new }
        ensures end { IfOk result (TellsLast modes.now.net.now character from self.old) }
    {
        self.make_next(modes, from, character, true)?;
        Ok(self.listing.least_end(modes.net))
    }

    /// The match at the front of the text.
    pub fn longest_match(
        &mut self,
        modes: &Modes,
        mode: u32,
        text: &[char],
    ) -> Result<Option<Match>, AllocError>
        requires lexable { IsLexable modes.now.net.now }
        requires sound { IsSound modes.now self.old }
        ensures sound { IsSound modes.now self.new }
        ensures found { IfOk result (IsFound modes.now.net.now (starts_in modes.now.starts.now mode) text.now) }
    {
        if text.is_empty() {
            return Ok(None);
        }
        self.renew(modes);
        let mut list = self.first(modes, mode)?;
        let mut best = None;
        let mut at = 0;
        while at + 1 < text.len() {
            if self.is_empty(list) {
                return Ok(best);
            }
            list = self.after(modes, list, text[at])?;
            at += 1;
            best = best_after(best, at, self.end_of(list));
        }
        let end = self.last_end(modes, list, text[at])?;
        Ok(best_after(best, at + 1, end))
    }
}
