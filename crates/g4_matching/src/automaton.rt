// Learned lists, and which comes after which.
ghost use Rattle.std.specs.Prelude.{◌≡◌, ◌*◌, ◌<◌, true, false, Some, IfOk, IfSome, OnOk, [], length, slice_get};
ghost use Rattle.g4_ordered.specs.Lists.{ListOf, Never};
ghost use Rattle.g4_ordered.specs.Network.{IsLexable};
ghost use Rattle.g4_matching.specs.declared.learned.Learned.{Learned as List};
ghost use Rattle.g4_matching.specs.Automaton.{HasEntries, IsForgotten, IsSound, KeepsLists, MakesNext, StepsTo, cell_of, starts_in};
ghost use Rattle.g4_matching.specs.Classes.{AreClasses};
ghost use Rattle.g4_matching.specs.Listing.{IsReady, listed, returns_of};

use crate::CharClasses;
use crate::cells::note;
use crate::learned::{Learned, are_same, earlier_than, hash_of};
use crate::listing::Listing;
use crate::modes::Modes;
use crate::rule_end::RuleEnd;
use std::alloc::{AllocError, Global};
use std::collections::BTreeMap;

/// How many lists of return states are kept from match to match.
const KEPT_RETURNS: usize = 65_536;

/// How many entries and cells all learned lists may have together. A single list may have more.
const MOST_KEPT: usize = 1_000_000;

/// Lists by number, as they are learned. Each stays until all are forgotten.
#[derive(Drop)]
pub(crate) struct Automaton {
    alloc: Global,
    pub listing: Listing,
    pub classes: CharClasses,
    pub lists: Vec<Learned>,
    /// For each list, one after another, a cell for each class of characters: the number of the next list, once it is known.
    pub next: Vec<Option<u32>>,
    /// For each mode the number of its first list, once it is known.
    pub firsts: Vec<Option<u32>>,
    /// For each hash the number of the newest list with it.
    newest: BTreeMap<u64, u32>,
    /// How many entries and cells there are.
    kept: usize,
}

impl Automaton {
    /// With no list learned.
    pub fn new(alloc: Global, modes: &Modes) -> Result<Automaton, AllocError>
        ensures { IfOk result (IsSound modes.now) }
    {
        let classes = CharClasses::of_network(alloc, modes.net)?;
        let automaton = Automaton::by_classes(alloc, modes, classes)?;
        Ok(automaton)
    }

    /// Another one over the same classes, with no list learned.
    pub fn another(&self, alloc: Global, modes: &Modes) -> Result<Automaton, AllocError>
        requires { IsSound modes.now self.now }
        ensures { IfOk result (IsSound modes.now) }
    {
        let classes = self.classes.copy(alloc)?;
        let automaton = Automaton::by_classes(alloc, modes, classes)?;
        Ok(automaton)
    }

    /// With no list learned, over classes of the characters.
    fn by_classes(
        alloc: Global,
        modes: &Modes,
        classes: CharClasses,
    ) -> Result<Automaton, AllocError>
        requires { AreClasses modes.now.net.now classes }
        ensures { IfOk result (IsSound modes.now) }
    {
        let firsts = vec![in alloc; None; modes.starts.len()]?;
        Ok(Automaton {
            alloc,
            listing: Listing::new(alloc),
            classes,
            lists: Vec::new(alloc),
            next: Vec::new(alloc),
            firsts,
            newest: BTreeMap::new(alloc),
            kept: 0,
        })
    }

    /// Forgets all lists.
    fn forget(&mut self)
        ensures forgotten { IsForgotten self.new }
        ensures classes { self.new.classes ≡ self.old.classes }
        ensures listing { self.new.listing ≡ self.old.listing }
    {
        self.lists.clear();
        self.next.clear();
        self.firsts.fill(None);
        self.newest.clear();
        self.kept = 0;
    }

    /// Empties the store of return states once it is large. Entries are by its numbers, so all lists are forgotten then.
    pub fn renew(&mut self, modes: &Modes)
        requires { IsSound modes.now self.old }
        ensures { IsSound modes.now self.new }
    {
        if self.listing.return_count() > KEPT_RETURNS {
            self.listing.clear_returns();
            self.forget();
        }
    }

    /// The learned list with the entries of the list that was made last.
    fn find(&self) -> Option<u32>
        ensures { IfSome result (λ n. HasEntries self.now n self.now.listing.list.items) }
    {
        let entries = self.listing.list.as_slice();
        let mut next = self.newest.get(&hash_of(entries)).copied();
        while let Some(number) = next {
            let list = self.lists.get(number as usize)?;
            if are_same(list.entries.as_slice(), entries) {
                return Some(number);
            }
            next = earlier_than(list.earlier, number);
        }
        None
    }

    /// How many entries and cells the list that was made last would add.
    fn size(&self) -> usize {
        self.listing.list.len().saturating_add(self.classes.count())
    }

    /// Whether the list that was made last may be kept beside the learned ones.
    fn has_room(&self) -> bool {
        self.kept.saturating_add(self.size()) <= MOST_KEPT
    }

    /// Keeps the list that was made last under the next number. There is no memory for more lists than a `u32` counts.
    fn add(&mut self, modes: &Modes) -> Result<u32, AllocError>
        requires sound { IsSound modes.now self.old }
        requires ready { IsReady self.old.listing }
        ensures sound { IsSound modes.now self.new }
        ensures listing { self.new.listing ≡ self.old.listing }
        ensures keeps { KeepsLists self.old self.new }
        ensures added { IfOk result (λ n. HasEntries self.new n self.old.listing.list.items) }
    {
        let number = self.lists.len();
        if number >= u32::MAX as usize {
            return Err(AllocError);
        }
        let entries = Vec::from_slice(self.alloc, self.listing.list.as_slice())?;
        let hash = hash_of(entries.as_slice());
        let earlier = self.newest.get(&hash).copied();
        let end = self.listing.least_end(modes.net);
        self.lists.reserve(1)?;
        self.newest.insert(hash, number as u32)?;
        self.next
            .resize(self.next.len() + self.classes.count(), None)?;
        self.kept = self.kept.saturating_add(self.size());
        self.lists.push_reserved(Learned {
            entries,
            end,
            earlier,
        });
        Ok(number as u32)
    }

    /// The number of the list that was made last, which is learned if it was not; None, where there is no room.
    pub fn learn_beside(&mut self, modes: &Modes) -> Result<Option<u32>, AllocError>
        requires sound { IsSound modes.now self.old }
        requires ready { IsReady self.old.listing }
        ensures sound { IsSound modes.now self.new }
        ensures listing { self.new.listing ≡ self.old.listing }
        ensures keeps { KeepsLists self.old self.new }
        ensures learned { IfOk result (λ found. IfSome found (λ n. HasEntries self.new n self.old.listing.list.items)) }
    {
        let found = self.find();
        if found.is_some() || !self.has_room() {
            return Ok(found);
        }
        let number = self.add(modes)?;
        Ok(Some(number))
    }

    /// Forgets all lists, and learns the one that was made last.
    pub fn learn_alone(&mut self, modes: &Modes) -> Result<u32, AllocError>
        requires sound { IsSound modes.now self.old }
        requires ready { IsReady self.old.listing }
        ensures sound { IsSound modes.now self.new }
        ensures listing { self.new.listing ≡ self.old.listing }
        ensures learned { IfOk result (λ n. HasEntries self.new n self.old.listing.list.items) }
    {
        self.forget();
        let number = self.add(modes)?;
        Ok(number)
    }

    /// The number of the list that was made last, which is learned if it was not.
    pub fn learn(&mut self, modes: &Modes) -> Result<u32, AllocError>
        requires sound { IsSound modes.now self.old }
        requires ready { IsReady self.old.listing }
        ensures sound { IsSound modes.now self.new }
        ensures listing { self.new.listing ≡ self.old.listing }
        ensures learned { IfOk result (λ n. HasEntries self.new n self.old.listing.list.items) }
    {
        if let Some(number) = self.learn_beside(modes)? {
            return Ok(number);
        }
        let number = self.learn_alone(modes)?;
        Ok(number)
    }

    /// Makes the first list of a mode. All lists are forgotten where that fails, since the store of return states may be lost.
    pub fn make_first(&mut self, modes: &Modes, mode: u32) -> Result<(), AllocError>
        requires lexable { IsLexable modes.now.net.now }
        requires sound { IsSound modes.now self.old }
        ensures sound { IsSound modes.now self.new }
        ensures ready { OnOk result (IsReady self.new.listing) }
        ensures made { OnOk result (ListOf modes.now.net.now false Never (starts_in modes.now.starts.now mode) (listed self.new.listing)) }
    {
        match self.listing.first(modes.net, modes.starts_in(mode)) {
            Ok(()) => Ok(()),
            Err(error) => {
                self.forget();
                Err(error)
            }
        }
    }

    /// Makes the list after a learned one. All lists are forgotten where that fails, as above.
    pub fn make_next(
        &mut self,
        modes: &Modes,
        from: u32,
        character: char,
        last: bool,
    ) -> Result<(), AllocError>
        requires lexable { IsLexable modes.now.net.now }
        requires sound { IsSound modes.now self.old }
        requires within { from < length self.old.lists.items }
        ensures sound { IsSound modes.now self.new }
        ensures ready { OnOk result (IsReady self.new.listing) }
        ensures made { OnOk result (MakesNext modes.now.net.now last character from self.old self.new) }
    {
        let list = self.lists[from as usize].entries.as_slice();
        match self.listing.step(modes.net, list, character, last) {
            Ok(()) => Ok(()),
            Err(error) => {
                self.forget();
                Err(error)
            }
        }
    }

    /// The cell of a list and a character.
    pub fn cell(&self, list: u32, character: char) -> usize
        requires within { list < length self.now.lists.items }
        requires cells { length self.now.next.items ≡ length self.now.lists.items * self.now.classes.count }
        ensures { result ≡ cell_of self.now.classes list character }
    {
        list as usize * self.classes.count() + self.classes.class_of(character)
    }

    /// Notes which list comes after a list.
    pub fn note_next(&mut self, modes: &Modes, from: u32, character: char, number: u32)
        requires sound { IsSound modes.now self.old }
        requires steps { StepsTo modes.now.net.now (returns_of self.old.listing) self.old.lists.items character from number }
        ensures sound { IsSound modes.now self.new }
        ensures listing { self.new.listing ≡ self.old.listing }
        ensures lists { self.new.lists ≡ self.old.lists }
    {
        let cell = self.cell(from, character);
        note(self.next.as_mut_slice(), cell, number);
    }

    /// Whether the list is empty.
    pub fn is_empty(&self, list: u32) -> bool
        requires { list < length self.now.lists.items }
        ensures { (l : List) → slice_get self.now.lists.items list ≡ Some l → result ≡ true → l.entries.items ≡ [] }
    {
        self.lists[list as usize].entries.is_empty()
    }

    /// The end that the list gives.
    pub fn end_of(&self, list: u32) -> Option<RuleEnd>
        requires { list < length self.now.lists.items }
        ensures { (l : List) → slice_get self.now.lists.items list ≡ Some l → result ≡ l.end }
    {
        self.lists[list as usize].end
    }
}
