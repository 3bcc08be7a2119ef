ghost use Rattle.std.specs.Prelude.{◌≡◌, ◌<◌};

use crate::{Status, run_alone};
use qe_rules::Steps;
use sl_base::{Bytes, List, Name};
use sl_io::{MemorySink, MemorySource, SourceRoot};
use std::alloc::Global;
use std::marker::Brand;
use std::process::Abort;
use std::sync::ledger::{Blank, Ledger};
use std::test::Fail;

/// A module that puts 1 into each element of `b`.
pub const FIRST: &str = "RWStructuredBuffer<int> b;
[shader(\"compute\")]
[numthreads(1,1,1)]
void main(uint3 id : SV_DispatchThreadID)
{
    b[id.x] = 1;
}
";

/// The words of that module.
#[rattlefmt::skip]
const FIRST_WORDS: [u32; 176] = [
    0x07230203, 0x00010500, 0x00000000, 0x0000001d, 0x00000000, 0x00020011, 0x00000001, 0x0003000e,
    0x00000000, 0x00000001, 0x0007000f, 0x00000005, 0x00000001, 0x6e69616d, 0x00000000, 0x00000002,
    0x00000003, 0x00060010, 0x00000001, 0x00000011, 0x00000001, 0x00000001, 0x00000001, 0x00040005,
    0x00000001, 0x6e69616d, 0x00000000, 0x00030005, 0x00000003, 0x00000062, 0x00040047, 0x00000002,
    0x0000000b, 0x0000001c, 0x00040047, 0x00000003, 0x00000022, 0x00000000, 0x00040047, 0x00000003,
    0x00000021, 0x00000000, 0x00040047, 0x00000004, 0x00000006, 0x00000004, 0x00030047, 0x00000005,
    0x00000002, 0x00050048, 0x00000005, 0x00000000, 0x00000023, 0x00000000, 0x00040015, 0x00000006,
    0x00000020, 0x00000000, 0x00040017, 0x00000007, 0x00000006, 0x00000003, 0x00040020, 0x00000008,
    0x00000001, 0x00000007, 0x0004003b, 0x00000008, 0x00000002, 0x00000001, 0x00040015, 0x00000009,
    0x00000020, 0x00000001, 0x0003001d, 0x00000004, 0x00000009, 0x0003001e, 0x00000005, 0x00000004,
    0x00040020, 0x0000000a, 0x0000000c, 0x00000005, 0x0004003b, 0x0000000a, 0x00000003, 0x0000000c,
    0x00020013, 0x0000000b, 0x00030021, 0x0000000c, 0x0000000b, 0x00040020, 0x0000000d, 0x00000007,
    0x00000006, 0x00020014, 0x0000000e, 0x00040020, 0x0000000f, 0x0000000c, 0x00000009, 0x0004002b,
    0x00000006, 0x00000010, 0x00000000, 0x0004002b, 0x00000009, 0x00000011, 0x00000001, 0x00050036,
    0x0000000b, 0x00000001, 0x00000000, 0x0000000c, 0x000200f8, 0x00000012, 0x0004003b, 0x0000000d,
    0x00000013, 0x00000007, 0x0004003d, 0x00000007, 0x00000014, 0x00000002, 0x00050051, 0x00000006,
    0x00000015, 0x00000014, 0x00000000, 0x0003003e, 0x00000013, 0x00000015, 0x0004003d, 0x00000006,
    0x00000016, 0x00000013, 0x00050044, 0x00000006, 0x00000017, 0x00000003, 0x00000000, 0x000500b0,
    0x0000000e, 0x00000018, 0x00000016, 0x00000017, 0x000300f7, 0x00000019, 0x00000000, 0x000400fa,
    0x00000018, 0x0000001a, 0x00000019, 0x000200f8, 0x0000001a, 0x0004003d, 0x00000006, 0x0000001b,
    0x00000013, 0x00060041, 0x0000000f, 0x0000001c, 0x00000003, 0x00000010, 0x0000001b, 0x0003003e,
    0x0000001c, 0x00000011, 0x000200f9, 0x00000019, 0x000200f8, 0x00000019, 0x000100fd, 0x00010038,
];

/// The calls that fail, counted from 1.
#[derive(Clone, Copy)]
pub struct Faults<'a> {
    pub input: &'a [u64],
    pub out: &'a [u64],
    pub err: &'a [u64],
}

pub const NO_FAULTS: Faults = Faults {
    input: &[],
    out: &[],
    err: &[],
};

/// How a run ended, and what was written.
#[derive(Drop)]
pub struct Ended {
    status: Status,
    out: MemorySink,
    err: MemorySink,
}

fn sink(alloc: Global, fail_at: &[u64]) -> Result<MemorySink, Fail> {
    let mut sink = MemorySink::new(alloc, 5, List::from_slice(alloc, fail_at)?);
    sink.reserve(1000)?;
    Ok(sink)
}

/// Runs without roots.
fn run(alloc: Global, words: &[&str], text: &[u8], faults: Faults) -> Result<Ended, Fail> {
    let mut roots: Vec<Box<dyn SourceRoot>> = Vec::new(alloc);
    run_over(alloc, &mut roots, words, text, faults)
}

/// Runs over these roots and objects in memory, which read 100 bytes a call and write 5.
pub fn run_over<R: SourceRoot>(
    alloc: Global,
    roots: &mut Vec<R>,
    words: &[&str],
    text: &[u8],
    faults: Faults,
) -> Result<Ended, Fail> {
    run_counted::<Brand, R>(alloc, roots, words, text, faults, Blank::new(1))
}

/// The same with a counter of steps, which is made here.
fn run_counted<L: Ledger, R: SourceRoot>(
    alloc: Global,
    roots: &mut Vec<R>,
    words: &[&str],
    text: &[u8],
    faults: Faults,
    blank: Blank,
) -> Result<Ended, Fail>
    requires name { blank.name ≡ L.name }
    requires parts { blank.parts ≡ L.parts }
    requires some { 0 < L.parts }
{
    let mut owned = Vec::new(alloc);
    for word in words {
        owned.push(String::from_str(alloc, word)?)?;
    }
    let fail_at = List::from_slice(alloc, faults.input)?;
    let mut input = MemorySource::new(Bytes::from_slice(alloc, text)?, 100, fail_at);
    let mut out = sink(alloc, faults.out)?;
    let mut err = sink(alloc, faults.err)?;
    let mut steps: Steps<L> = Steps::new(blank);
    let status = run_alone(
        alloc, &owned, roots, &mut input, &mut out, &mut err, &mut steps,
    );
    Ok(Ended { status, out, err })
}

/// Words as bytes, the lowest byte of each first.
fn bytes_of(alloc: Global, words: &[u32]) -> Result<Vec<u8>, Fail> {
    let mut bytes = Vec::new(alloc);
    for word in words {
        bytes.extend_from_slice(&word.to_le_bytes())?;
    }
    Ok(bytes)
}

pub fn expect_ending(rt: &impl Abort, ended: &Ended, status: Status, out: &[u8], err: &str) {
    assert_eq!(rt; &ended.status, &status);
    assert_eq!(rt; ended.out.as_slice(), out);
    assert_eq!(rt; ended.err.as_slice(), err.as_bytes());
}

#[test]
fn one_writes_the_words_of_the_module(rt: HostRuntime) -> Result<(), Fail> {
    let alloc = rt.alloc();
    let ended = run(alloc, &["one", "main"], FIRST.as_bytes(), NO_FAULTS)?;
    let bytes = bytes_of(alloc, &FIRST_WORDS)?;
    expect_ending(&rt, &ended, Status::Done, &bytes, "");
    Ok(())
}

#[test]
fn faults_of_each_object_are_told(rt: HostRuntime) -> Result<(), Fail> {
    let alloc = rt.alloc();
    let words = ["one", "main"];
    let input = Faults {
        input: &[2],
        ..NO_FAULTS
    };
    let ended = run(alloc, &words, FIRST.as_bytes(), input)?;
    expect_ending(
        &rt,
        &ended,
        Status::ReadFault,
        &[],
        "slangrun: read failed\n",
    );

    let out = Faults {
        out: &[2],
        ..NO_FAULTS
    };
    let ended = run(alloc, &words, FIRST.as_bytes(), out)?;
    let status = Status::WriteFault { written: 5 };
    let part = [0x03, 0x02, 0x23, 0x07, 0x00];
    expect_ending(&rt, &ended, status, &part, "slangrun: write failed\n");

    let err = Faults {
        err: &[3],
        ..NO_FAULTS
    };
    let ended = run(alloc, &words, b"", err)?;
    expect_ending(
        &rt,
        &ended,
        Status::WriteFault { written: 10 },
        &[],
        "input:1:1:",
    );
    let ended = run(alloc, &["two"], b"", err)?;
    expect_ending(&rt, &ended, Status::Usage, &[], "usage: sla");
    Ok(())
}

/// A status with the name that is given.
fn expect_line(rt: &impl Abort, status: &Status, number: u8, line: &str) {
    assert_eq!(rt; status.number(), number);
    assert_eq!(rt; status.line().as_slice(), line.as_bytes());
}

#[test]
fn statuses_have_their_numbers_and_lines(rt: HostRuntime) -> Result<(), Fail> {
    let alloc = rt.alloc();
    for (status, number, line) in [
        (Status::Done, 0, ""),
        (Status::Diagnosed, 1, ""),
        (
            Status::Usage,
            2,
            "usage: slangrun one ENTRY | check MODULE\n",
        ),
        (
            Status::InputTooLarge,
            2,
            "slangrun: limit: input is too large\n",
        ),
        (
            Status::TooManyModules,
            2,
            "slangrun: limit: more than 256 modules\n",
        ),
        (Status::ReadFault, 4, "slangrun: read failed\n"),
        (
            Status::WriteFault { written: 1 },
            5,
            "slangrun: write failed\n",
        ),
        (Status::NoMemory, 6, "slangrun: out of memory\n"),
    ] {
        expect_line(&rt, &status, number, line);
    }
    let name = Name::new(alloc, b"m")?;
    let line = "slangrun: limit: module m is too large\n";
    expect_line(&rt, &Status::ModuleTooLarge { name }, 2, line);
    let name = Name::new(alloc, b"m")?;
    let line = "slangrun: root 4294967295 failed on m.slang\n";
    expect_line(
        &rt,
        &Status::SourceFault {
            root: u32::MAX,
            name,
        },
        3,
        line,
    );
    Ok(())
}
