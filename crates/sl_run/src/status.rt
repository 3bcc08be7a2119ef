//! How a command ended.

ghost use Rattle.std.specs.Prelude.{◌≡◌, ◌+◌, ◌≤◌, ◌++◌, length};
ghost use Rattle.std.specs.Fmt.{decimal};
ghost use Rattle.arrayvec.specs.ArrayVec.{array_vec_len};
ghost use Rattle.sl_run.specs.Seen.{seen, Reports};
ghost use Rattle.sl_run.specs.Status.{number_of, line_of, longest_line};

use arrayvec::ArrayVec;
use itoa::Buffer;
use sl_base::Name;
use sl_io::{Sink, write_all_of};

/// How a command ended.
#[derive(Debug, Drop, PartialEq, Eq)]
pub enum Status {
    /// No reply has diagnostics, and all was written.
    Done,
    /// A reply has diagnostics, and all was written.
    Diagnosed,
    /// The words are none of the commands.
    Usage,
    /// The input has more bytes than a module may have.
    InputTooLarge,
    /// More than 256 modules were found.
    TooManyModules,
    /// A module has more than 262,144 bytes.
    ModuleTooLarge { name: Name },
    /// A root, counted from 1, had a fault when it was asked for a module.
    SourceFault { root: u32, name: Name },
    /// The input had a fault.
    ReadFault,
    /// The sink that carries the result had a fault, and took this many bytes of the result.
    WriteFault { written: u64 },
    /// Memory ran out before the first byte of the result was written.
    NoMemory,
}

/// The greatest number of bytes of a status's line.
const LONGEST_LINE: usize = 512;

/// The line of a status, which is kept without taking memory.
pub type StatusLine = ArrayVec<u8, LONGEST_LINE>;

impl Status {
    /// The number that the program ends with.
    pub fn number(&self) -> u8
        ensures { result ≡ number_of self.now }
    {
        match self {
            Status::Done => 0,
            Status::Diagnosed => 1,
            Status::Usage | Status::InputTooLarge | Status::TooManyModules => 2,
            Status::ModuleTooLarge { .. } => 2,
            Status::SourceFault { .. } => 3,
            Status::ReadFault => 4,
            Status::WriteFault { .. } => 5,
            Status::NoMemory => 6,
        }
    }

    /// The line that tells the status, with its line end; nothing where the reply tells it.
    pub fn line(&self) -> StatusLine
        ensures { result.items ≡ line_of self.now }
    {
        match self {
            Status::Done | Status::Diagnosed => fixed(b""),
            Status::Usage => fixed(b"usage: slangrun one ENTRY | check MODULE\n"),
            Status::InputTooLarge => fixed(b"slangrun: limit: input is too large\n"),
            Status::TooManyModules => fixed(b"slangrun: limit: more than 256 modules\n"),
            Status::ModuleTooLarge { name } => module_too_large(name),
            Status::SourceFault { root, name } => source_fault(*root, name),
            Status::ReadFault => fixed(b"slangrun: read failed\n"),
            Status::WriteFault { .. } => fixed(b"slangrun: write failed\n"),
            Status::NoMemory => fixed(b"slangrun: out of memory\n"),
        }
    }
}

/// A line that names nothing.
fn fixed(bytes: &[u8]) -> StatusLine
    requires { length bytes.now ≤ longest_line }
    ensures { result.items ≡ bytes.now }
{
    let mut line = StatusLine::new();
    push(&mut line, bytes);
    line
}

fn module_too_large(name: &Name) -> StatusLine
    ensures { result.items ≡ line_of (Status.ModuleTooLarge name.now) }
{
    let mut line = StatusLine::new();
    push(&mut line, b"slangrun: limit: module ");
    push_name(&mut line, name);
    push(&mut line, b" is too large\n");
    line
}

fn source_fault(root: u32, name: &Name) -> StatusLine
    ensures { result.items ≡ line_of (Status.SourceFault root name.now) }
{
    let mut line = StatusLine::new();
    push(&mut line, b"slangrun: root ");
    push_number(&mut line, root);
    push(&mut line, b" failed on ");
    push_name(&mut line, name);
    push(&mut line, b".slang\n");
    line
}

/// Puts a number in decimal digits at the end of a line that has room for the longest one.
fn push_number(line: &mut StatusLine, number: u32)
    requires { array_vec_len line.old + 40 ≤ longest_line }
    ensures items { line.new.items ≡ line.old.items ++ decimal number }
    ensures len { array_vec_len line.new ≤ array_vec_len line.old + 40 }
{
    push(line, Buffer::new().format(number).as_bytes());
}

/// Puts a name at the end of a line that has room for the longest one.
fn push_name(line: &mut StatusLine, name: &Name)
    requires { array_vec_len line.old + 255 ≤ longest_line }
    ensures items { line.new.items ≡ line.old.items ++ name.now }
    ensures len { array_vec_len line.new ≤ array_vec_len line.old + 255 }
{
    push(line, name.bytes());
}

/// Puts bytes at the end of a line that has room for them.
fn push(line: &mut StatusLine, bytes: &[u8])
    requires { array_vec_len line.old + length bytes.now ≤ longest_line }
    ensures items { line.new.items ≡ line.old.items ++ bytes.now }
    ensures len { array_vec_len line.new ≡ array_vec_len line.old + length bytes.now }
{
    match line.try_extend_from_slice(bytes) {
        Ok(()) => {}
        Err(_) => unreachable!(),
    }
}

/// Writes the status's line, as much of it as `err` takes, and gives the status.
pub fn report<E: Sink>(status: Status, err: &mut E) -> Status
    ensures status { result ≡ status }
    ensures reports { Reports status
        (seen (E.written err.old) (E.written err.new) (E.faults err.old) (E.faults err.new)) }
    ensures never_falls { E.faults err.old ≤ E.faults err.new }
{
    // A status stays what it is where its line cannot be written.
    let _ = write_all_of(err, status.line().as_slice());
    status
}
