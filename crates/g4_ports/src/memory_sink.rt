// Bytes taken in memory.
ghost use Rattle.std.specs.Prelude.{◌≡◌, ◌+◌, ◌-◌, ◌^◌, ◌<◌, Some, IfOk, [], length};
ghost use Rattle.g4_ports.specs.Ports.{IsCount, TakesFrom, CountsPut};
ghost use Rattle.g4_ports.specs.Memory.{put_answer, put_count};

use crate::{Failed, Sink};
use std::alloc::{AllocError, Global};
use std::marker::Model;

/// An output in memory, with room that is made once. The puts of `failing` fail, counted from 0, and so does one with no
/// room left; each other takes `most` bytes at most.
#[derive(Drop)]
pub struct MemSink {
    bytes: Vec<u8>,
    room: usize,
    failing: Vec<u64>,
    most: usize,
    calls: u64,
    faults: u64,
}

impl Model for MemSink {
    ghost use Rattle.std.specs.Prelude.{vec_len, vec_capacity, ◌≤◌};
    ghost use Rattle.g4_ports.specs.Sunk.{Sunk};

    ghost Value = { Sunk };

    ghost view = { λ s. record {
      bytes = s.bytes.items;
      room = s.room;
      failing = s.failing.items;
      most = s.most;
      calls = s.calls;
      faults = s.faults;
    } };

    ghost invariant = { λ s. (vec_len s.bytes ≤ s.room) × (s.room ≤ vec_capacity s.bytes) };
}

impl MemSink {
    /// An output with room for this many bytes, that has taken none.
    pub fn new(
        alloc: Global,
        room: usize,
        failing: Vec<u64>,
        most: usize,
    ) -> Result<Self, AllocError>
        ensures { IfOk result (λ s. s ≡ record { bytes = []; room = room; failing = failing.items; most = most; calls = 0; faults = 0 }) }
    {
        let bytes = Vec::with_capacity(alloc, room)?;
        Ok(MemSink {
            bytes,
            room,
            failing,
            most,
            calls: 0,
            faults: 0,
        })
    }

    /// How many puts there were.
    pub fn calls(&self) -> u64
        ensures { result ≡ self.now.calls }
    {
        self.calls
    }

    /// The bytes taken so far.
    pub fn bytes(&self) -> &[u8]
        ensures { result.now ≡ self.now.bytes }
    {
        &self.bytes
    }
}

impl Sink for MemSink {
    ghost taken = { λ s. Some s.bytes };

    ghost faults = { λ s. s.faults };

    fn put(&mut self, piece: &[u8]) -> Result<usize, Failed>
        requires { 0 < length piece.now }
        ensures count { IsCount (length piece.now) result }
        ensures takes { TakesFrom piece.now (Some self.old.bytes) (Some self.new.bytes) result }
        ensures counts_faults { CountsPut self.old.faults self.new.faults result }
        // It fails exactly at the calls of the list, and where no room is left.
        ensures answer { put_answer result ≡ put_count self.old (length piece.now) }
        ensures next { self.old.calls < 2 ^ 64 - 1 → self.new.calls ≡ self.old.calls + 1 }
        ensures room { self.new.room ≡ self.old.room }
        ensures same_list { self.new.failing ≡ self.old.failing }
        ensures same_most { self.new.most ≡ self.old.most }
    {
        let call = self.calls;
        self.calls = call.saturating_add(1);
        let left = self.room - self.bytes.len();
        let count = piece.len().min(self.most).min(left);
        if count == 0 || self.failing.contains(&call) {
            self.faults = self.faults.saturating_add(1);
            return Err(Failed);
        }
        match self.bytes.extend_from_slice(&piece[..count]) {
            Ok(()) => Ok(count),
            Err(_) => {
                self.faults = self.faults.saturating_add(1);
                Err(Failed)
            }
        }
    }
}
