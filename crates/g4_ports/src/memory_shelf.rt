// Files in memory.
ghost use Rattle.std.specs.Prelude.{◌≡◌, ◌+◌, ◌-◌, ◌^◌, ◌<◌, ◌==◌, Some, option_map};
ghost use Rattle.std.specs.List.{list_any};
ghost use Rattle.g4_ports.specs.Ports.{IsFileOf, IsSized, CountsFaults, CountsMisses, is_failed};
ghost use Rattle.g4_ports.specs.Memory.{find_file};

use crate::{Got, Shelf};
use g4_base::{MOST_BYTES, Octets, Text};
use std::alloc::Global;

/// A file in memory.
#[derive(Drop)]
pub struct MemFile {
    pub name: Text,
    pub bytes: Octets,
}

/// Files in memory. The calls of `failing` fail, counted from 0.
#[derive(Drop)]
pub struct MemShelf {
    pub files: Vec<MemFile>,
    pub failing: Vec<u64>,
    pub calls: u64,
    pub faults: u64,
    pub misses: u64,
}

impl MemShelf {
    /// These files, of which none was fetched yet.
    pub fn new(files: Vec<MemFile>, failing: Vec<u64>) -> MemShelf
        ensures { result ≡ record { files = files; failing = failing; calls = 0; faults = 0; misses = 0 } }
    {
        MemShelf {
            files,
            failing,
            calls: 0,
            faults: 0,
            misses: 0,
        }
    }
}

/// The bytes of the first file of this name.
fn find<'a>(files: &'a [MemFile], name: &str) -> Option<&'a [u8]>
    ensures { option_map (λ bytes. bytes.now) result ≡ find_file files.now name.now }
{
    files
        .iter()
        .find(|file| file.name.as_str() == name)
        .map(|file| file.bytes.as_slice())
}

impl Shelf for MemShelf {
    ghost told = { λ s. Some (find_file s.files.items) };

    ghost faults = { λ s. s.faults };

    ghost misses = { λ s. s.misses };

    fn fetch(&mut self, alloc: Global, name: &str) -> Got
        ensures keeps { Some (find_file self.new.files.items) ≡ Some (find_file self.old.files.items) }
        ensures content { IsFileOf (find_file self.old.files.items name.now) result }
        ensures sized { IsSized result }
        ensures counts_faults { CountsFaults self.old.faults self.new.faults result }
        ensures counts_misses { CountsMisses self.old.misses self.new.misses result }
        // It fails exactly at the calls of the list.
        ensures listed { is_failed result ≡ list_any (λ call. call == self.old.calls) self.old.failing.items }
        ensures next { self.old.calls < 2 ^ 64 - 1 → self.new.calls ≡ self.old.calls + 1 }
        ensures same_files { self.new.files ≡ self.old.files }
        ensures same_list { self.new.failing ≡ self.old.failing }
    {
        let call = self.calls;
        self.calls = call.saturating_add(1);
        if self.failing.contains(&call) {
            self.faults = self.faults.saturating_add(1);
            return Got::Failed;
        }
        let Some(bytes) = find(&self.files, name) else {
            self.misses = self.misses.saturating_add(1);
            return Got::Absent;
        };
        let size = bytes.len() as u64;
        if size > MOST_BYTES {
            self.misses = self.misses.saturating_add(1);
            return Got::TooLarge(size);
        }
        match bytes.to_vec(alloc) {
            Ok(copy) => Got::Bytes(Octets::new(copy)),
            Err(_) => Got::NoMemory,
        }
    }
}
