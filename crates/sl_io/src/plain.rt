//! A source over bytes in memory and a sink without memory, which never fail.

ghost use Rattle.std.specs.Prelude.{◌≡◌, ◌<◌, ◌≤◌, length, drop, Some, None};
ghost use Rattle.sl_io.specs.Faults.{Rose};
ghost use Rattle.sl_io.specs.Plain.{plain_answer};
ghost use Rattle.sl_io.specs.Sink.{Takes};
ghost use Rattle.sl_io.specs.Source.{Reads};

use crate::rest::Rest;
use crate::sink::{Sink, Took};
use crate::source::{Got, Source};
use sl_base::Bytes;
use std::marker::Model;

/// A source of bytes in memory that fills each buffer and never fails.
#[derive(Debug, Drop)]
pub struct PlainSource {
    rest: Rest,
}

impl Model for PlainSource {
    ghost use Rattle.std.specs.Prelude.{List, ℕ};

    ghost Value = { List ℕ };

    ghost view = { λ source. source.rest };
}

impl PlainSource {
    /// A source of these bytes.
    pub fn new(bytes: Bytes) -> PlainSource
        ensures { result ≡ bytes }
    {
        PlainSource {
            rest: Rest::new(bytes),
        }
    }
}

impl Source for PlainSource {
    ghost left = { λ source. Some source };

    ghost faults = { λ _. 0 };

    fn read(&mut self, buf: &mut [u8]) -> Got
        requires { 0 < length buf.old }
        ensures reads { Reads result (length buf.old) buf.new (Some self.old) (Some self.new) }
        ensures answer { result ≡ plain_answer self.old (length buf.old) }
        ensures after { self.new ≡ drop (length buf.old) self.old }
    {
        let room = buf.len();
        match self.rest.give(buf, room) {
            0 => Got::End,
            count => Got::Bytes(count),
        }
    }
}

/// A sink that takes each piece whole and drops it, and never fails.
#[derive(Clone, Copy, Debug, Default)]
pub struct PlainSink;

impl PlainSink {
    /// A sink that drops what it takes.
    pub fn new() -> PlainSink {
        PlainSink
    }
}

impl Sink for PlainSink {
    ghost written = { λ _. None };

    ghost faults = { λ _. 0 };

    fn write(&mut self, bytes: &[u8]) -> Took
        requires { 0 < length bytes.now }
        ensures { result ≡ Took.Bytes (length bytes.now) }
    {
        Took::Bytes(bytes.len())
    }
}
