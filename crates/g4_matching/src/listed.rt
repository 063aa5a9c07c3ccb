// A list in which entries are found fast.
ghost use Rattle.std.specs.Prelude.{◌≡◌, ◌↔◌, ◌∷◌, ◌++◌, [], IsTrue, OnOk, Some, length, slice_get};
ghost use Rattle.g4_ordered.specs.Configurations.{In};
ghost use Rattle.g4_matching.specs.Listed.{IsNewest};

use crate::entry::Entry;
use crate::places::Places;
use std::alloc::{AllocError, Global};
use std::marker::Model;

/// Entries in order. For each key the place of the newest entry with it is noted, and for each entry that of the one before
/// it with the same key. What was noted of a list that is cleared does no harm: a place counts only where it has an entry with
/// that key.
#[derive(Drop)]
pub(crate) struct Listed {
    entries: Vec<Entry>,
    earlier: Vec<Option<usize>>,
    newest: Places,
}

impl Model for Listed {
    ghost use Rattle.std.specs.Prelude.{List};
    ghost use Rattle.g4_matching.specs.declared.entry.Entry.{Entry};

    ghost Value = { List Entry };

    ghost use Rattle.g4_matching.specs.Listed.{IsIndexed};

    ghost view = { λ l. l.entries.items };

    ghost invariant = { λ l. IsIndexed l.entries.items l.earlier.items l.newest };
}

impl Listed {
    /// No entries.
    pub fn new(alloc: Global) -> Listed
        ensures { result ≡ [] }
    {
        Listed {
            entries: Vec::new(alloc),
            earlier: Vec::new(alloc),
            newest: Places::new(alloc),
        }
    }

    /// Takes all entries out, in constant time.
    pub fn clear(&mut self)
        ensures { self.new ≡ [] }
    {
        self.entries.clear();
        self.earlier.clear();
    }

    /// How many there are.
    pub fn len(&self) -> usize
        ensures { result ≡ length self.now }
    {
        self.entries.len()
    }

    /// The entries in place.
    pub fn as_slice(&self) -> &[Entry]
        ensures { result.now ≡ self.now }
    {
        self.entries.as_slice()
    }

    /// The place of the newest entry with a key.
    fn newest(&self, key: usize) -> Option<usize>
        ensures { IsNewest self.now key result }
    {
        let place = self.newest.get(key)?;
        let entry = self.entries.get(place)?;
        let found = entry.key();
        if found != key {
            return None;
        }
        Some(place)
    }

    /// Whether the entry is in the list. Only those with its key are looked at.
    pub fn has(&self, entry: &Entry) -> bool
        ensures { IsTrue result ↔ In entry.now self.now }
    {
        let key = entry.key();
        let mut next = self.newest(key);
        while let Some(place) = next {
            if self.entries[place] == *entry {
                return true;
            }
            next = self.earlier[place];
        }
        false
    }

    /// Puts an entry at the end.
    pub fn push(&mut self, entry: Entry) -> Result<(), AllocError>
        ensures { OnOk result (self.new ≡ self.old ++ entry ∷ []) }
    {
        let place = self.entries.len();
        let key = entry.key();
        let before = self.newest(key);
        self.entries.reserve(1)?;
        self.earlier.reserve(1)?;
        self.newest.set(key, place)?;
        self.earlier.push_reserved(before);
        self.entries.push_reserved(entry);
        Ok(())
    }
}
