//! A source over bytes in memory, which fails where it is told to.

ghost use Rattle.std.specs.Prelude.{◌≡◌, ◌<◌, ◌≤◌, length, Some};
ghost use Rattle.sl_io.specs.Faults.{Rose};
ghost use Rattle.sl_io.specs.MemorySource.{read_answer, after_read};
ghost use Rattle.sl_io.specs.Source.{Reads};

use crate::rest::Rest;
use crate::source::{Got, Source};
use sl_base::{Bytes, List};
use std::marker::Model;

/// A source that keeps what it gives in memory.
#[derive(Debug, Drop)]
pub struct MemorySource {
    rest: Rest,
    piece: usize,
    fail_at: List<u64>,
    calls: u64,
    faults: u64,
}

impl Model for MemorySource {
    ghost use Rattle.std.specs.Prelude.{◌<◌};
    ghost use Rattle.sl_io.specs.MemorySource.{SourceState};

    ghost Value = { SourceState };

    ghost view = { λ s. record {
      rest = s.rest;
      piece = s.piece;
      fail_at = s.fail_at;
      calls = s.calls;
      faults = s.faults;
    } };

    ghost invariant = { λ s. 0 < s.piece };
}

impl MemorySource {
    /// A source of these bytes that gives at most `piece` of them per read. The reads whose numbers
    /// `fail_at` lists, counted from 1, fail and take nothing, and no other read fails.
    pub fn new(bytes: Bytes, piece: usize, fail_at: List<u64>) -> MemorySource
        requires { 0 < piece }
        ensures { result ≡ record {
          rest = bytes;
          piece = piece;
          fail_at = fail_at;
          calls = 0;
          faults = 0;
        } }
    {
        MemorySource {
            rest: Rest::new(bytes),
            piece,
            fail_at,
            calls: 0,
            faults: 0,
        }
    }
}

impl Source for MemorySource {
    ghost left = { λ s. Some s.rest };

    ghost faults = { λ s. s.faults };

    fn read(&mut self, buf: &mut [u8]) -> Got
        requires { 0 < length buf.old }
        ensures reads { Reads result (length buf.old) buf.new
            (Some self.old.rest) (Some self.new.rest) }
        ensures failed { result ≡ Got.Failed → Rose self.old.faults self.new.faults }
        ensures never_falls { self.old.faults ≤ self.new.faults }
        ensures answer { result ≡ read_answer self.old (length buf.old) }
        ensures after { self.new ≡ after_read self.old (length buf.old) }
    {
        self.calls = self.calls.saturating_add(1);
        if self.fail_at.as_slice().contains(&self.calls) {
            self.faults = self.faults.saturating_add(1);
            return Got::Failed;
        }
        match self.rest.give(buf, self.piece) {
            0 => Got::End,
            count => Got::Bytes(count),
        }
    }
}
