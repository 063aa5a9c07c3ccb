// The real files and the real streams. Of their content nothing is known.
ghost use Rattle.std.specs.Prelude.{◌≡◌, None, ◌≤◌, length};
ghost use Rattle.std.specs.Option.{option_copied};
ghost use Rattle.g4_ports.specs.Ports.{CountsFaults, CountsMisses, IsSized, Rose};

use crate::{Failed, Got, Shelf, Sink};
use g4_base::{MOST_BYTES, Octets, Text};
use std::alloc::{AllocError, Global};
use std::fs::{self, File};
use std::io::{self, ErrorKind, Read, Write};
use std::rt::Files;

/// Why a fetch failed: the name of the file, as far as memory allowed, and the reason that the system gave.
#[derive(Drop)]
pub struct Failure {
    pub name: Option<Text>,
    pub reason: io::Error,
}

/// The files of the system.
#[derive(Drop)]
pub struct FileShelf<'a, R: Files> {
    rt: &'a R,
    faults: u64,
    misses: u64,
    failure: Option<Failure>,
}

/// How reading ended.
#[derive(Drop)]
enum Ended {
    Whole,
    Failed(io::Error),
    NoMemory,
}

/// Reads to the end, up to the limit.
fn read_file<F: Read>(file: &mut F, bytes: &mut Vec<u8>) -> Ended
    requires { length bytes.old.items ≤ MOST_BYTES }
    ensures { length bytes.new.items ≤ MOST_BYTES }
{
    let mut buf = [0u8; 4096];
    for _ in 0..u64::MAX {
        match file.read(&mut buf) {
            Ok(0) => return Ended::Whole,
            Ok(count) => {
                if bytes.len() as u64 + count as u64 > MOST_BYTES {
                    return Ended::Failed(grew());
                }
                if bytes.extend_from_slice(&buf[..count]).is_err() {
                    return Ended::NoMemory;
                }
            }
            Err(reason) => return Ended::Failed(reason),
        }
    }
    Ended::Failed(grew())
}

/// More was read than the limit, although the system gave a smaller size.
fn grew() -> io::Error {
    io::Error::new(
        ErrorKind::FileTooLarge,
        "more than 16777216 bytes were read",
    )
}

/// The size of a file, or why there is none.
fn look<R: Files>(rt: &R, name: &str) -> io::Result<u64> {
    Ok(fs::metadata(rt, name)?.len())
}

impl<'a, R: Files> FileShelf<'a, R> {
    /// The files of the system, of which none was fetched yet.
    pub fn new(rt: &'a R) -> Self
        ensures faults { result.faults ≡ 0 }
        ensures misses { result.misses ≡ 0 }
    {
        FileShelf {
            rt,
            faults: 0,
            misses: 0,
            failure: None,
        }
    }

    /// Why the last fetch failed, if one did.
    pub fn failure(&self) -> Option<&Failure>
        ensures { option_copied result ≡ self.now.failure }
    {
        self.failure.as_ref()
    }
}

/// A fetch failed.
fn fail<'a, R: Files>(
    shelf: &mut FileShelf<'a, R>,
    alloc: Global,
    name: &str,
    reason: io::Error,
) -> Got
    ensures failed { result ≡ Got.Failed }
    ensures faults { Rose shelf.old.faults shelf.new.faults }
    ensures misses { shelf.new.misses ≡ shelf.old.misses }
{
    shelf.faults = shelf.faults.saturating_add(1);
    shelf.failure = Some(Failure {
        name: Text::copy_of(alloc, name).ok(),
        reason,
    });
    Got::Failed
}

/// Reads a file that is there and within the limit.
fn read<'a, R: Files>(shelf: &mut FileShelf<'a, R>, alloc: Global, name: &str) -> Got
    ensures sized { IsSized result }
    ensures faults { CountsFaults shelf.old.faults shelf.new.faults result }
    ensures misses { CountsMisses shelf.old.misses shelf.new.misses result }
{
    let mut file = match fs::open(shelf.rt, name) {
        Ok(file) => file,
        Err(reason) => return fail(shelf, alloc, name, reason),
    };
    let mut bytes = Vec::new(alloc);
    match read_file(&mut file, &mut bytes) {
        Ended::Whole => Got::Bytes(Octets::new(bytes)),
        Ended::NoMemory => Got::NoMemory,
        Ended::Failed(reason) => fail(shelf, alloc, name, reason),
    }
}

impl<'a, R: Files> Shelf for FileShelf<'a, R> {
    ghost told = { λ s. None };

    ghost faults = { λ s. s.faults };

    ghost misses = { λ s. s.misses };

    fn fetch(&mut self, alloc: Global, name: &str) -> Got {
        match look(self.rt, name) {
            Ok(size) if size > MOST_BYTES => {
                self.misses = self.misses.saturating_add(1);
                Got::TooLarge(size)
            }
            Ok(_) => read(self, alloc, name),
            Err(reason) => match reason.kind() {
                ErrorKind::NotFound => {
                    self.misses = self.misses.saturating_add(1);
                    Got::Absent
                }
                ErrorKind::OutOfMemory => Got::NoMemory,
                _ => fail(self, alloc, name, reason),
            },
        }
    }
}

/// A stream of the system, or any writer.
#[derive(Drop)]
pub struct OutSink<W: Write + Drop> {
    inner: W,
    faults: u64,
    failure: Option<io::Error>,
}

impl<W: Write + Drop> OutSink<W> {
    /// The stream, to which nothing was written yet.
    pub fn new(inner: W) -> Self
        ensures { result.faults ≡ 0 }
    {
        OutSink {
            inner,
            faults: 0,
            failure: None,
        }
    }

    /// The reason that the system gave for the last put that failed, if one did.
    pub fn failure(&self) -> Option<io::Error>
        ensures { result ≡ self.now.failure }
    {
        self.failure
    }
}

impl<W: Write + Drop> Sink for OutSink<W> {
    ghost taken = { λ s. None };

    ghost faults = { λ s. s.faults };

    fn put(&mut self, piece: &[u8]) -> Result<usize, Failed> {
        let reason = match self.inner.write(piece) {
            Ok(0) => io::Error::new(ErrorKind::WriteZero, "nothing was taken"),
            Ok(count) => return Ok(count),
            Err(reason) => reason,
        };
        self.faults = self.faults.saturating_add(1);
        self.failure = Some(reason);
        Err(Failed)
    }
}
