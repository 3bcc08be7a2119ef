//! A sink that keeps what is written in memory, and fails where it is told to.

ghost use Rattle.std.specs.Prelude.{◌≡◌, ◌<◌, ◌≤◌, ◌-◌, [], ◌++◌, length, max, Some, OnOk, OnErr};
ghost use Rattle.sl_io.specs.Faults.{Rose};
ghost use Rattle.sl_io.specs.MemorySink.{write_answer, after_write};
ghost use Rattle.sl_io.specs.Sink.{Takes};

use crate::sink::{Sink, Took};
use sl_base::{List, NoMemory};
use std::alloc::Global;
use std::marker::Model;

/// A sink that keeps what was written in memory that was reserved.
#[derive(Debug, Drop)]
pub struct MemorySink {
    held: Vec<u8>,
    room: usize,
    piece: usize,
    fail_at: List<u64>,
    calls: u64,
    faults: u64,
}

impl Model for MemorySink {
    ghost use Rattle.std.specs.Prelude.{◌+◌, ◌<◌, ◌≤◌, vec_len, vec_capacity};
    ghost use Rattle.sl_io.specs.MemorySink.{SinkState};

    ghost Value = { SinkState };

    ghost view = { λ s. record {
      held = s.held.items;
      room = s.room;
      piece = s.piece;
      fail_at = s.fail_at;
      calls = s.calls;
      faults = s.faults;
    } };

    ghost invariant = { λ s. (0 < s.piece) × (vec_len s.held + s.room ≤ vec_capacity s.held) };
}

impl MemorySink {
    /// A sink without room that takes at most `piece` bytes per write. The writes whose numbers
    /// `fail_at` lists, counted from 1, fail and add nothing. No other write fails, except where
    /// there is no room.
    pub fn new(alloc: Global, piece: usize, fail_at: List<u64>) -> MemorySink
        requires { 0 < piece }
        ensures { result ≡ record {
          held = [];
          room = 0;
          piece = piece;
          fail_at = fail_at;
          calls = 0;
          faults = 0;
        } }
    {
        MemorySink {
            held: Vec::new(alloc),
            room: 0,
            piece,
            fail_at,
            calls: 0,
            faults: 0,
        }
    }

    /// Makes room for `n` further bytes. More room that was there already stays.
    pub fn reserve(&mut self, n: usize) -> Result<(), NoMemory>
        ensures ok { OnOk result (self.new ≡ record self.old { room = max self.old.room n }) }
        ensures err { OnErr result (self.new ≡ self.old) }
    {
        self.held.reserve(n)?;
        self.room = self.room.max(n);
        Ok(())
    }

    /// What was written.
    pub fn as_slice(&self) -> &[u8]
        ensures { result.now ≡ self.now.held }
    {
        self.held.as_slice()
    }

    /// Adds bytes that there is room for.
    fn keep(&mut self, bytes: &[u8])
        requires { length bytes.now ≤ self.old.room }
        ensures { self.new ≡ record self.old {
          held = self.old.held ++ bytes.now;
          room = self.old.room - length bytes.now;
        } }
    {
        match self.held.extend_from_slice(bytes) {
            Ok(()) => self.room -= bytes.len(),
            Err(_) => unreachable!(),
        }
    }
}

impl Sink for MemorySink {
    ghost written = { λ s. Some s.held };

    ghost faults = { λ s. s.faults };

    fn write(&mut self, bytes: &[u8]) -> Took
        requires { 0 < length bytes.now }
        ensures takes { Takes result bytes.now (Some self.old.held) (Some self.new.held) }
        ensures failed { result ≡ Took.Failed → Rose self.old.faults self.new.faults }
        ensures never_falls { self.old.faults ≤ self.new.faults }
        ensures answer { result ≡ write_answer self.old bytes.now }
        ensures after { self.new ≡ after_write self.old bytes.now }
    {
        self.calls = self.calls.saturating_add(1);
        if self.room == 0 || self.fail_at.as_slice().contains(&self.calls) {
            self.faults = self.faults.saturating_add(1);
            return Took::Failed;
        }
        let count = self.piece.min(bytes.len()).min(self.room);
        self.keep(&bytes[..count]);
        Took::Bytes(count)
    }
}
