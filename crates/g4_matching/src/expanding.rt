// What waiting entries lead to without a character, in order, each once.
ghost use Rattle.std.specs.Prelude.{◌≡◌, ◌↔◌, ◌∷◌, ◌++◌, [], true, IsTrue, OnOk};
ghost use Rattle.g4_ordered.specs.Lists.{IsDropped, late_in};
ghost use Rattle.g4_ordered.specs.Network.{IsLexable};
ghost use Rattle.g4_matching.specs.Ends.{AreEnds, HasRuleEnd};
ghost use Rattle.g4_matching.specs.Entries.{AreKnown, IsKnown, config_of};
ghost use Rattle.g4_matching.specs.Expanding.{IsExpansion, IsSound, TakesIn, all_of, waiting_of};
ghost use Rattle.g4_matching.specs.Returns.{Grows};

use crate::entry::Entry;
use crate::listed::Listed;
use crate::places::Places;
use crate::rule_end::is_at_end;
use crate::waiting::Waiting;
use g4_ordered::LexerNetwork;
use std::alloc::{AllocError, Global};

/// Entries that wait, those that were appended, and for each rule the place of an end among them. As in the list, what was
/// noted before it was cleared does no harm.
#[derive(Drop)]
pub(crate) struct Expanding {
    pub waiting: Waiting,
    pub all: Listed,
    pub ends: Places,
}

impl Expanding {
    /// No entries.
    pub fn new(alloc: Global) -> Expanding {
        Expanding {
            waiting: Waiting::new(alloc),
            all: Listed::new(alloc),
            ends: Places::new(alloc),
        }
    }

    /// Whether the list has the end of a rule.
    fn has_end(&self, net: &LexerNetwork, rule: u32) -> bool
        requires { AreEnds net.now self.now.all self.now.ends }
        ensures { IsTrue result ↔ HasRuleEnd net.now self.now.all rule }
    {
        let Some(place) = self.ends.get(rule as usize) else {
            return false;
        };
        match self.all.as_slice().get(place) {
            Some(entry) => entry.rule == rule && is_at_end(net, entry),
            None => false,
        }
    }

    /// Whether the entry has passed a reluctant decision, and the list has its rule's end.
    fn is_behind_end(&self, net: &LexerNetwork, entry: &Entry) -> bool
        requires { AreEnds net.now self.now.all self.now.ends }
        ensures { IsTrue result ↔ ((entry.now.passed ≡ true) × HasRuleEnd net.now self.now.all entry.now.rule) }
    {
        entry.passed && self.has_end(net, entry.rule)
    }

    /// Whether the entry is not appended.
    fn is_dropped(&self, net: &LexerNetwork, in_step: bool, entry: &Entry) -> bool
        requires sound { IsSound net.now self.now }
        requires known { IsKnown self.now.waiting.returns entry.now }
        ensures { IsTrue result ↔ IsDropped (late_in net.now in_step) (all_of self.now) (config_of self.now.waiting.returns entry.now) }
    {
        self.waiting.returns.is_whole();
        if self.all.has(entry) {
            return true;
        }
        in_step && self.is_behind_end(net, entry)
    }

    /// Notes the place of an entry that will be appended, where it is at its rule's end.
    fn note_end(&mut self, net: &LexerNetwork, entry: &Entry) -> Result<(), AllocError>
        requires { AreEnds net.now self.old.all self.old.ends }
        ensures waiting { OnOk result (self.new.waiting ≡ self.old.waiting) }
        ensures same { OnOk result (self.new.all ≡ self.old.all) }
        ensures ends { OnOk result (AreEnds net.now (self.old.all ++ entry.now ∷ []) self.new.ends) }
    {
        if is_at_end(net, entry) {
            self.ends.set(entry.rule as usize, self.all.len())?;
        }
        Ok(())
    }

    /// Appends an entry, and makes wait what it leads to.
    fn take_in(&mut self, net: &LexerNetwork, last: bool, entry: Entry) -> Result<(), AllocError>
        requires sound { IsSound net.now self.old }
        requires known { IsKnown self.old.waiting.returns entry }
        ensures { OnOk result (TakesIn net.now last entry self.old self.new) }
    {
        self.waiting.push_leads(net, last, entry)?;
        self.note_end(net, &entry)?;
        self.all.push(entry)?;
        Ok(())
    }

    /// Lists what the waiting entries lead to, in a step or at first.
    pub fn expand(
        &mut self,
        net: &LexerNetwork,
        last: bool,
        in_step: bool,
    ) -> Result<(), AllocError>
        requires lexable { IsLexable net.now }
        requires known { AreKnown self.old.waiting.returns self.old.waiting.entries.items }
        ensures grows { OnOk result (Grows self.old.waiting.returns self.new.waiting.returns) }
        ensures known { OnOk result (AreKnown self.new.waiting.returns self.new.all) }
        ensures expanded { OnOk result (IsExpansion net.now last in_step (waiting_of self.old.waiting) (all_of self.new)) }
    {
        self.all.clear();
        while let Some(entry) = self.waiting.entries.pop() {
            if self.is_dropped(net, in_step, &entry) {
                continue;
            }
            self.take_in(net, last, entry)?;
        }
        Ok(())
    }
}
