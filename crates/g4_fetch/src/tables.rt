// The numbers in a file of tokens are read.
ghost use Rattle.std.specs.Prelude.{◌≡◌, Some, option_map};
ghost use Rattle.g4_fetch.specs.Counting.{Counts};
ghost use Rattle.g4_fetch.specs.Files.{Files};
ghost use Rattle.g4_fetch.specs.Reading.{GivesOrHalts};
ghost use Rattle.g4_fetch.specs.Tables.{IsTableHalt, ReadsFile, ReadsTable};

use crate::opening::open;
use crate::stop::{FileFault, Halt, Stop};
use g4_base::Text;
use g4_ports::Shelf;
use g4_token_file::{TokenFileFault, TokenTable, read_tokens};
use std::alloc::Global;

/// Why the file of this name is no file of tokens.
fn halt_of(alloc: Global, name: &str, fault: TokenFileFault) -> Halt
    ensures { IsTableHalt name.now fault result }
{
    let Ok(name) = Text::copy_of(alloc, name) else {
        return Halt::NoMemory;
    };
    match fault {
        TokenFileFault::BadTokensLine(line) => {
            Halt::Stop(Stop::Unreadable(name, FileFault::BadTokensLine(line)))
        }
        TokenFileFault::Types => Halt::Stop(Stop::Unreadable(name, FileFault::Types)),
        TokenFileFault::NoMemory => Halt::NoMemory,
    }
}

/// The numbers in the file of this name.
fn read_table_file<S: Shelf>(alloc: Global, shelf: &mut S, name: &str) -> Result<TokenTable, Halt>
    ensures keeps { S.told shelf.new ≡ S.told shelf.old }
    ensures content { (files : Files) → S.told shelf.old ≡ Some files → GivesOrHalts (ReadsFile files name.now) result }
    ensures counts { Counts (S.faults shelf.old) (S.faults shelf.new) (S.misses shelf.old) (S.misses shelf.new) result }
{
    let bytes = open(alloc, shelf, name)?;
    match read_tokens(alloc, bytes.as_slice()) {
        Ok(table) => Ok(table),
        Err(fault) => Err(halt_of(alloc, name, fault)),
    }
}

/// The numbers in the file of this name, if one is named.
pub fn read_table<S: Shelf>(
    alloc: Global,
    shelf: &mut S,
    file: Option<Text>,
) -> Result<TokenTable, Halt>
    ensures keeps { S.told shelf.new ≡ S.told shelf.old }
    ensures content { (files : Files) → S.told shelf.old ≡ Some files → GivesOrHalts (ReadsTable files file) result }
    ensures counts { Counts (S.faults shelf.old) (S.faults shelf.new) (S.misses shelf.old) (S.misses shelf.new) result }
{
    match file {
        None => Ok(TokenTable::new(alloc)),
        Some(name) => read_table_file(alloc, shelf, name.as_str()),
    }
}
