// The traits of the outside, and what each call answers.
ghost use Rattle.std.specs.Prelude.{◌≡◌, ◌<◌, ℕ, List, Option, IfSome, OnOk, length};
ghost use Rattle.g4_ports.specs.Ports.{IsFileOf, CountsFaults, CountsMisses, IsSized, TakesFrom, CountsPut, IsCount, TakesFront, with_more};

use g4_base::Octets;
use std::alloc::Global;

/// An output took nothing.
#[derive(Clone, Copy, Debug, PartialEq, Eq)]
pub struct Failed;

/// What a source has under a name.
#[derive(Drop)]
pub enum Got {
    Bytes(Octets),
    /// No file has the name.
    Absent,
    /// Reading failed.
    Failed,
    /// The file has this many bytes, which is past the limit, and was not read.
    TooLarge(u64),
    NoMemory,
}

/// A source of files by their names.
pub trait Shelf {
    /// The files by their names, where they are known.
    ghost told: { Self → Option (List ℕ → Option (List ℕ)) };

    /// How many fetches failed.
    ghost faults: { Self → ℕ };

    /// How many fetches found no file, or one past the limit.
    ghost misses: { Self → ℕ };

    /// The file of this name. It changes no file.
    fn fetch(&mut self, alloc: Global, name: &str) -> Got
        ensures keeps { told self.new ≡ told self.old }
        ensures content { IfSome (told self.old) (λ files. IsFileOf (files name.now) result) }
        ensures sized { IsSized result }
        ensures counts_faults { CountsFaults (faults self.old) (faults self.new) result }
        ensures counts_misses { CountsMisses (misses self.old) (misses self.new) result };
}

/// An output of bytes.
pub trait Sink {
    /// The bytes taken so far, where they are known.
    ghost taken: { Self → Option (List ℕ) };

    /// How many puts failed.
    ghost faults: { Self → ℕ };

    /// Takes the first bytes of the piece, one at least, and says how many; or takes none and fails.
    fn put(&mut self, piece: &[u8]) -> Result<usize, Failed>
        requires { 0 < length piece.now }
        ensures count { IsCount (length piece.now) result }
        ensures takes { TakesFrom piece.now (taken self.old) (taken self.new) result }
        ensures counts_faults { CountsPut (faults self.old) (faults self.new) result };
}

/// What is called before and after each file is parsed. It promises nothing.
pub trait Gate: Sync {
    /// This worker begins this file, both counted from 0.
    fn enter(&self, worker: u32, file: u32);

    /// This worker has ended this file.
    fn leave(&self, worker: u32, file: u32);
}

/// The gate that returns at once.
#[derive(Clone, Copy, Drop)]
pub struct Open;

impl Gate for Open {
    fn enter(&self, _worker: u32, _file: u32) {}

    fn leave(&self, _worker: u32, _file: u32) {}
}

/// Puts all the bytes, unless a put fails; then the output has taken a front part of them.
pub fn write_all<O: Sink>(sink: &mut O, bytes: &[u8]) -> Result<(), Failed>
    ensures whole { OnOk result (O.taken sink.new ≡ with_more (O.taken sink.old) bytes.now) }
    ensures part { TakesFront bytes.now (O.taken sink.old) (O.taken sink.new) }
    ensures counts_faults { CountsPut (O.faults sink.old) (O.faults sink.new) result }
{
    let mut done = 0;
    while done < bytes.len() {
        let (_, rest) = bytes.split_at(done);
        let count = sink.put(rest)?;
        done += count;
    }
    Ok(())
}
