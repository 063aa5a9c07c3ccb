// One list after another, made from the network.
ghost use Rattle.std.specs.Prelude.{◌≡◌, ◌↔◌, ◌≤◌, IsTrue, MatchOption, OnOk, false, [], ◌∷◌, length};
ghost use Rattle.g4_ordered.specs.Lists.{Keeps, ListOf, Never};
ghost use Rattle.g4_ordered.specs.Network.{IsLexable};
ghost use Rattle.g4_ordered.specs.Starts.{starts_of};
ghost use Rattle.g4_matching.specs.Ends.{TellsEnd};
ghost use Rattle.g4_matching.specs.Entries.{AreKnown, configs_of};
ghost use Rattle.g4_matching.specs.Expanding.{all_of};
ghost use Rattle.g4_matching.specs.Listing.{IsNext, IsReady, listed, returns_of};
ghost use Rattle.g4_matching.specs.Returns.{Grows};

use crate::entry::Entry;
use crate::expanding::Expanding;
use crate::returns::Returns;
use crate::rule_end::{RuleEnd, is_at_end, is_kept};
use g4_ordered::{LexerNetwork, Start};
use std::alloc::{AllocError, Global};

/// What makes lists, and the list that was made last. Its tables are kept from list to list.
#[derive(Drop)]
pub(crate) struct Listing {
    pub expanding: Expanding,
    pub list: Vec<Entry>,
}

/// Whether an end of a rule that is not greater was found.
fn is_as_good(best: Option<RuleEnd>, rule: u32) -> bool
    ensures { IsTrue result ↔ MatchOption best ⊥ (λ end. end.rule ≤ rule) }
{
    match best {
        Some(end) => end.rule <= rule,
        None => false,
    }
}

/// Fills a list with the entries that are kept, in their order.
fn fill_kept(
    net: &LexerNetwork,
    returns: &Returns,
    all: &[Entry],
    list: &mut Vec<Entry>,
) -> Result<(), AllocError>
    requires { AreKnown returns.now all.now }
    ensures known { OnOk result (AreKnown returns.now list.new.items) }
    ensures keeps { OnOk result (Keeps net.now (configs_of returns.now all.now) (configs_of returns.now list.new.items)) }
{
    returns.is_whole();
    list.clear();
    for entry in all {
        if is_kept(net, entry) {
            list.push(*entry)?;
        }
    }
    Ok(())
}

impl Listing {
    /// With empty tables.
    pub fn new(alloc: Global) -> Listing {
        Listing {
            expanding: Expanding::new(alloc),
            list: Vec::new(alloc),
        }
    }

    /// How many lists of return states there are in the store.
    pub fn return_count(&self) -> usize
        ensures { result ≡ length (returns_of self.now) }
    {
        self.expanding.waiting.returns.len()
    }

    /// Empties the store of return states. No list that was made before is of use then.
    pub fn clear_returns(&mut self)
        ensures { returns_of self.new ≡ [] ∷ [] }
    {
        self.expanding.waiting.returns.clear();
    }

    /// Makes the list of what is kept of the expansion.
    fn keep(&mut self, net: &LexerNetwork) -> Result<(), AllocError>
        requires { AreKnown self.old.expanding.waiting.returns self.old.expanding.all }
        ensures same { returns_of self.new ≡ returns_of self.old }
        ensures ready { OnOk result (IsReady self.new) }
        ensures keeps { OnOk result (Keeps net.now (all_of self.old.expanding) (listed self.new)) }
    {
        let expanding = &self.expanding;
        fill_kept(
            net,
            &expanding.waiting.returns,
            expanding.all.as_slice(),
            &mut self.list,
        )?;
        Ok(())
    }

    /// Makes the first list of a text that is not empty.
    pub fn first(&mut self, net: &LexerNetwork, starts: &[Start]) -> Result<(), AllocError>
        requires { IsLexable net.now }
        ensures grows { OnOk result (Grows (returns_of self.old) (returns_of self.new)) }
        ensures ready { OnOk result (IsReady self.new) }
        ensures made { OnOk result (ListOf net.now false Never (starts_of starts.now) (listed self.new)) }
    {
        self.expanding.waiting.begin(starts)?;
        self.expanding.expand(net, false, false)?;
        self.keep(net)?;
        Ok(())
    }

    /// Makes the list that comes after a list by a character.
    pub fn step(
        &mut self,
        net: &LexerNetwork,
        list: &[Entry],
        character: char,
        last: bool,
    ) -> Result<(), AllocError>
        requires lexable { IsLexable net.now }
        requires known { AreKnown (returns_of self.old) list.now }
        ensures grows { OnOk result (Grows (returns_of self.old) (returns_of self.new)) }
        ensures ready { OnOk result (IsReady self.new) }
        ensures made { OnOk result (IsNext net.now last character (configs_of (returns_of self.old) list.now) (listed self.new)) }
    {
        self.expanding.waiting.read(net, list, character)?;
        self.expanding.expand(net, last, true)?;
        self.keep(net)?;
        Ok(())
    }

    /// The end that the list gives: of the least rule that ends there, the first.
    pub fn least_end(&self, net: &LexerNetwork) -> Option<RuleEnd>
        requires { IsReady self.now }
        ensures { TellsEnd net.now (listed self.now) result }
    {
        self.expanding.waiting.returns.is_whole();
        let mut best = None;
        for entry in self.list.as_slice() {
            if !is_at_end(net, entry) {
                continue;
            }
            if is_as_good(best, entry.rule) {
                continue;
            }
            best = Some(RuleEnd {
                rule: entry.rule,
                alternative: entry.alternative,
            });
        }
        best
    }
}
