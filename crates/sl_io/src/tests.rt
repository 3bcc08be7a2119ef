use crate::{
    Fetched, Got, MemorySink, MemorySource, PlainSink, PlainSource, ReadRefusal, Sink, Source,
    StdSink, StdSource, Took, WriteRefusal, read_all, write_all_of,
};
use sl_base::{Bytes, List};
use std::alloc::Global;
use std::io;
use std::io::Write;
use std::test::Fail;

/// Bytes of a test's own.
fn bytes_of(alloc: Global, text: &[u8]) -> Result<Bytes, Fail> {
    Ok(Bytes::from_slice(alloc, text)?)
}

/// The numbers of the calls that fail.
fn calls_of(alloc: Global, calls: &[u64]) -> Result<List<u64>, Fail> {
    Ok(List::from_slice(alloc, calls)?)
}

#[test]
fn reads_at_most_the_allowed_bytes(rt: HostRuntime) -> Result<(), Fail> {
    let alloc = rt.alloc();
    for piece in [1, 2, 5, 100] {
        for max in [5, 6, usize::MAX] {
            let mut src = MemorySource::new(bytes_of(alloc, b"hello")?, piece, List::new(alloc));
            let all = read_all(alloc, &mut src, max)?;
            assert_eq!(rt;
                all.as_slice(),
                b"hello".as_slice(),
                "piece {piece}, max {max}"
            );
        }
        for max in [0, 4] {
            let mut src = MemorySource::new(bytes_of(alloc, b"hello")?, piece, List::new(alloc));
            let refusal = read_all(alloc, &mut src, max).err();
            assert_eq!(rt;
                refusal,
                Some(ReadRefusal::TooLong),
                "piece {piece}, max {max}"
            );
        }
    }
    Ok(())
}

#[test]
fn reads_more_than_one_buffer(rt: HostRuntime) -> Result<(), Fail> {
    let alloc = rt.alloc();
    let text = vec![in alloc; 7u8; 10_000]?;
    let mut src = PlainSource::new(bytes_of(alloc, &text)?);
    assert_eq!(rt;
        read_all(alloc, &mut src, 10_000)?.as_slice(),
        text.as_slice()
    );
    assert_eq!(rt; src.read(&mut [0; 4]), Got::End);
    Ok(())
}

#[test]
fn tells_the_fault_of_a_source(rt: HostRuntime) -> Result<(), Fail> {
    let alloc = rt.alloc();
    let mut src = MemorySource::new(bytes_of(alloc, b"hello")?, 2, calls_of(alloc, &[2])?);
    let refusal = read_all(alloc, &mut src, 5).err();
    assert_eq!(rt; refusal, Some(ReadRefusal::Fault));
    assert_eq!(rt; read_all(alloc, &mut src, 5)?.as_slice(), b"llo".as_slice());
    Ok(())
}

#[test]
fn tells_how_much_was_written(rt: HostRuntime) -> Result<(), Fail> {
    let alloc = rt.alloc();
    let mut sink = MemorySink::new(alloc, 5, calls_of(alloc, &[2])?);
    sink.reserve(12)?;
    let refused = write_all_of(&mut sink, b"twelve bytes");
    assert_eq!(rt; refused, Err(WriteRefusal { written: 5 }));
    assert_eq!(rt; sink.as_slice(), b"twelv".as_slice());
    write_all_of(&mut sink, b"e bytes")?;
    assert_eq!(rt; sink.as_slice(), b"twelve bytes".as_slice());
    Ok(())
}

#[test]
fn takes_no_more_than_its_room(rt: HostRuntime) -> Result<(), Fail> {
    let alloc = rt.alloc();
    let mut sink = MemorySink::new(alloc, 100, List::new(alloc));
    assert_eq!(rt; sink.write(b"a"), Took::Failed);
    sink.reserve(3)?;
    sink.reserve(2)?;
    let refused = write_all_of(&mut sink, b"hello".as_slice());
    assert_eq!(rt; refused, Err(WriteRefusal { written: 3 }));
    sink.reserve(2)?;
    write_all_of(&mut sink, b"lo")?;
    assert_eq!(rt; sink.as_slice(), b"hello".as_slice());
    Ok(())
}

#[test]
fn drops_all_that_it_takes(rt: HostRuntime) -> Result<(), Fail> {
    let mut sink = PlainSink::new();
    assert_eq!(rt; sink.write(b"hello"), Took::Bytes(5));
    write_all_of(&mut sink, b"twelve bytes")?;
    Ok(())
}

/// A reader whose second read fails.
#[derive(Drop)]
struct FailsSecond<'a> {
    text: &'a [u8],
    reads: u8,
}

impl<'a> io::Read for FailsSecond<'a> {
    fn read(&mut self, buf: &mut [u8]) -> io::Result<usize> {
        self.reads = self.reads.saturating_add(1);
        if self.reads == 2 {
            return Err(io::Error::from(io::ErrorKind::BrokenPipe));
        }
        let mut text = self.text;
        let count = io::Read::read(&mut text, buf)?;
        self.text = text;
        Ok(count)
    }
}

#[test]
fn passes_on_what_a_reader_gives(rt: HostRuntime) -> Result<(), Fail> {
    let alloc = rt.alloc();
    let text: &[u8] = b"hello";
    let mut src = StdSource::new(text);
    assert_eq!(rt;
        read_all(alloc, &mut src, 5)?.as_slice(),
        b"hello".as_slice()
    );
    let mut failing = StdSource::new(FailsSecond { text, reads: 0 });
    assert_eq!(rt; failing.read(&mut [0; 2]), Got::Bytes(2));
    assert_eq!(rt; failing.read(&mut [0; 2]), Got::Failed);
    assert_eq!(rt;
        read_all(alloc, &mut failing, 5)?.as_slice(),
        b"llo".as_slice()
    );
    Ok(())
}

/// A writer that takes at most 3 bytes at a time, whose second flush fails and whose fourth write
/// takes nothing.
#[derive(Drop)]
struct Choppy {
    got: Vec<u8>,
    writes: u8,
    flushes: u8,
}

impl Write for Choppy {
    fn write(&mut self, bytes: &[u8]) -> io::Result<usize> {
        self.writes = self.writes.saturating_add(1);
        if self.writes == 4 {
            return Ok(0);
        }
        let count = bytes.len().min(3);
        self.got.extend_from_slice(&bytes[..count])?;
        Ok(count)
    }

    fn flush(&mut self) -> io::Result<()> {
        self.flushes = self.flushes.saturating_add(1);
        if self.flushes == 2 {
            return Err(io::Error::from(io::ErrorKind::BrokenPipe));
        }
        Ok(())
    }
}

#[test]
fn counts_a_failed_flush_as_a_failed_write(rt: HostRuntime) -> Result<(), Fail> {
    let alloc = rt.alloc();
    let mut held = Vec::new(alloc);
    write_all_of(&mut StdSink::new(&mut held), b"hello")?;
    assert_eq!(rt; held.as_slice(), b"hello".as_slice());
    let mut sink = StdSink::new(Choppy {
        got: Vec::new(alloc),
        writes: 0,
        flushes: 0,
    });
    let refused = write_all_of(&mut sink, b"hello".as_slice());
    assert_eq!(rt; refused, Err(WriteRefusal { written: 3 }));
    assert_eq!(rt; sink.write(b"abc"), Took::Bytes(3));
    assert_eq!(rt; sink.write(b"abc"), Took::Failed);
    assert_eq!(rt; sink.write(b"abcd"), Took::Bytes(3));
    Ok(())
}
