//! Readers and writers of std as sources and sinks. As such they tell nothing of their content.

ghost use Rattle.std.specs.Prelude.{◌≡◌, ◌≢◌, ℕ, ◌<◌, ◌≤◌, length, take, None, OnSome};
ghost use Rattle.sl_io.specs.Faults.{Rose, one_more};
ghost use Rattle.sl_io.specs.Sink.{Takes, Gains};
ghost use Rattle.sl_io.specs.Source.{Reads};

use crate::sink::{Sink, Took};
use crate::source::{Got, Source};
use std::io::{Read, Write};
use std::marker::Model;

/// A reader as a source, which contracts see as the reader and the count of faults. Each error of the
/// reader is a fault.
#[derive(Debug, Drop)]
pub struct StdSource<R> {
    reader: R,
    faults: u64,
}

impl<R> Model for StdSource<R> {
    ghost use Rattle.std.specs.Prelude.{ℕ};

    ghost Value = { R × ℕ };

    ghost view = { λ source. (source.reader, source.faults) };
}

impl<R> StdSource<R> {
    /// A source over a reader, with no fault yet.
    pub fn new(reader: R) -> StdSource<R>
        ensures { result ≡ (reader, 0) }
    {
        StdSource { reader, faults: 0 }
    }
}

impl<R: Read> Source for StdSource<R> {
    ghost left = { λ _. None };

    ghost faults = { λ source. source.1 };

    fn read(&mut self, buf: &mut [u8]) -> Got
        requires { 0 < length buf.old }
        ensures reads { Reads result (length buf.old) buf.new None None }
        ensures failed { result ≡ Got.Failed → Rose self.old.1 self.new.1 }
        ensures never_falls { self.old.1 ≤ self.new.1 }

        // What the reader itself tells of its bytes, and which answers count a fault.
        ensures told { OnSome (R.remaining self.old.0) (Reads result (length buf.old) buf.new
            (R.remaining self.old.0) (R.remaining self.new.0)) }
        ensures counts { result ≡ Got.Failed → self.new.1 ≡ one_more self.old.1 }
        ensures no_other { result ≢ Got.Failed → self.new.1 ≡ self.old.1 }
    {
        match self.reader.read(buf) {
            Ok(0) => Got::End,
            Ok(count) => Got::Bytes(count),
            Err(_) => {
                self.faults = self.faults.saturating_add(1);
                Got::Failed
            }
        }
    }
}

/// A writer as a sink, which contracts see as the writer and the count of faults. Each piece is
/// flushed. An error of a write or of a flush is a fault, and so is a write that takes no byte.
#[derive(Debug, Drop)]
pub struct StdSink<W> {
    writer: W,
    faults: u64,
}

impl<W> Model for StdSink<W> {
    ghost use Rattle.std.specs.Prelude.{ℕ};

    ghost Value = { W × ℕ };

    ghost view = { λ sink. (sink.writer, sink.faults) };
}

impl<W> StdSink<W> {
    /// A sink over a writer, with no fault yet.
    pub fn new(writer: W) -> StdSink<W>
        ensures { result ≡ (writer, 0) }
    {
        StdSink { writer, faults: 0 }
    }
}

impl<W: Write> Sink for StdSink<W> {
    ghost written = { λ _. None };

    ghost faults = { λ sink. sink.1 };

    fn write(&mut self, bytes: &[u8]) -> Took
        requires { 0 < length bytes.now }
        ensures takes { Takes result bytes.now None None }
        ensures failed { result ≡ Took.Failed → Rose self.old.1 self.new.1 }
        ensures never_falls { self.old.1 ≤ self.new.1 }

        // What the writer itself tells of its bytes, and which answers count a fault.
        ensures told { (n : ℕ) → result ≡ Took.Bytes n
            → Gains (W.contents self.old.0) (W.contents self.new.0) (take n bytes.now) }
        ensures counts { result ≡ Took.Failed → self.new.1 ≡ one_more self.old.1 }
        ensures no_other { result ≢ Took.Failed → self.new.1 ≡ self.old.1 }
    {
        if let Ok(count) = self.writer.write(bytes)
            && count > 0
            && self.writer.flush().is_ok()
        {
            return Took::Bytes(count);
        }
        self.faults = self.faults.saturating_add(1);
        Took::Failed
    }
}
