// One grammar file is read.
ghost use Rattle.std.specs.Prelude.{◌≡◌, ◌≤◌, ℕ, Ok, Some, IfOk, length};
ghost use Rattle.g4_base.specs.declared.limits.TheConstants.{MOST_BYTES};
ghost use Rattle.g4_fetch.specs.Counting.{Counts};
ghost use Rattle.g4_fetch.specs.Files.{Files, Opens};
ghost use Rattle.g4_fetch.specs.Reading.{GivesOrHalts, IsReadingHalt, Reads};
ghost use Rattle.g4_source.specs.Blocks.{HaveAlternatives};

use crate::opening::open;
use crate::stop::{FileFault, Halt, Stop};
use g4_base::Text;
use g4_ports::Shelf;
use g4_reader::{ReadFault, read_grammar};
use g4_source::Source;
use std::alloc::Global;

/// Why the file of this name is no grammar.
fn halt_of(alloc: Global, name: &str, fault: ReadFault) -> Halt
    ensures { IsReadingHalt name.now fault result }
{
    let Ok(name) = Text::copy_of(alloc, name) else {
        return Halt::NoMemory;
    };
    match fault {
        ReadFault::NotUtf8(at) => Halt::Stop(Stop::Unreadable(name, FileFault::NotUtf8(at))),
        ReadFault::Syntax(place, characters) => {
            Halt::Stop(Stop::Unreadable(name, FileFault::Syntax(place, characters)))
        }
        ReadFault::BadSet(place) => Halt::Stop(Stop::Unreadable(name, FileFault::BadSet(place))),
        ReadFault::Nesting => Halt::Stop(Stop::Unreadable(name, FileFault::Nesting)),
        ReadFault::NoMemory => Halt::NoMemory,
    }
}

/// The grammar in the file of this name, which has these bytes.
fn read_bytes(alloc: Global, name: &str, bytes: &[u8]) -> Result<Source, Halt>
    requires { length bytes.now ≤ MOST_BYTES }
    ensures content { (files : Files) → Opens files name.now (Ok bytes.now) → GivesOrHalts (Reads files name.now) result }
    ensures full { IfOk result HaveAlternatives }
    ensures counts { (faults misses : ℕ) → Counts faults faults misses misses result }
{
    match read_grammar(alloc, bytes) {
        Ok(source) => Ok(source),
        Err(fault) => Err(halt_of(alloc, name, fault)),
    }
}

/// The grammar in the file of this name.
pub fn read_file<S: Shelf>(alloc: Global, shelf: &mut S, name: &str) -> Result<Source, Halt>
    ensures keeps { S.told shelf.new ≡ S.told shelf.old }
    ensures content { (files : Files) → S.told shelf.old ≡ Some files → GivesOrHalts (Reads files name.now) result }
    ensures full { IfOk result HaveAlternatives }
    ensures counts { Counts (S.faults shelf.old) (S.faults shelf.new) (S.misses shelf.old) (S.misses shelf.new) result }
{
    let bytes = open(alloc, shelf, name)?;
    read_bytes(alloc, name, bytes.as_slice())
}
