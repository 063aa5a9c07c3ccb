// The bytes of one file.
ghost use Rattle.std.specs.Prelude.{◌≡◌, ◌≤◌, Some, length};
ghost use Rattle.g4_base.specs.declared.limits.TheConstants.{MOST_BYTES};
ghost use Rattle.g4_fetch.specs.Counting.{Counts};
ghost use Rattle.g4_fetch.specs.Files.{Files, Opens};
ghost use Rattle.g4_fetch.specs.Reading.{GivesOrHalts};

use crate::stop::{Halt, Stop};
use g4_base::{Octets, Text};
use g4_ports::{Got, Shelf};
use std::alloc::Global;
use std::marker::Model;

/// The bytes of a file, which contracts see as their list. They are no more than a file can have.
#[derive(Drop)]
pub struct FileBytes {
    bytes: Octets,
}

impl Model for FileBytes {
    ghost use Rattle.std.specs.Prelude.{◌≤◌, ℕ, List, length};
    ghost use Rattle.g4_base.specs.declared.limits.TheConstants.{MOST_BYTES};

    ghost Value = { List ℕ };

    ghost view = { λ f. f.bytes };

    ghost invariant = { λ f. length f.bytes ≤ MOST_BYTES };
}

impl FileBytes {
    /// These bytes.
    pub fn new(bytes: Octets) -> Self
        requires { length bytes ≤ MOST_BYTES }
        ensures { result ≡ bytes }
    {
        FileBytes { bytes }
    }

    /// The bytes in place.
    pub fn as_slice(&self) -> &[u8]
        ensures value { result.now ≡ self.now }
        ensures small { length result.now ≤ MOST_BYTES }
    {
        self.bytes.as_slice()
    }
}

/// The bytes of a file.
pub fn open<S: Shelf>(alloc: Global, shelf: &mut S, name: &str) -> Result<FileBytes, Halt>
    ensures keeps { S.told shelf.new ≡ S.told shelf.old }
    ensures content { (files : Files) → S.told shelf.old ≡ Some files → GivesOrHalts (Opens files name.now) result }
    ensures counts { Counts (S.faults shelf.old) (S.faults shelf.new) (S.misses shelf.old) (S.misses shelf.new) result }
{
    match shelf.fetch(alloc, name) {
        Got::Bytes(bytes) => Ok(FileBytes::new(bytes)),
        Got::Absent => Err(Halt::Stop(Stop::Absent(Text::copy_of(alloc, name)?))),
        Got::TooLarge(size) => Err(Halt::Stop(Stop::TooLarge(Text::copy_of(alloc, name)?, size))),
        Got::Failed => Err(Halt::Failed),
        Got::NoMemory => Err(Halt::NoMemory),
    }
}
