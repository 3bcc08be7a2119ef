//! The command `one ENTRY`.

ghost use Rattle.std.specs.Prelude.{◌≡◌, ◌≤◌, true, false, IfOk, IfErr};
ghost use Rattle.sl_run.specs.Ending.{Answers, Refuses, EndsCode, EndsDiagnostics, status_of};
ghost use Rattle.sl_run.specs.One.{EndsOne};
ghost use Rattle.sl_run.specs.RunAlone.{leaves_err, leaves_out};
ghost use Rattle.sl_run.specs.Seen.{seen};

use crate::compile::{Compilation, compile};
use crate::status::{Status, report};
use sl_base::Bytes;
use sl_io::{ReadRefusal, Sink, Source, read_all, write_all_of};
use std::alloc::Global;

/// The greatest number of bytes of a module.
const MOST_BYTES: usize = 262_144;

/// Runs `one ENTRY`: reads the input and writes the bytes of its words to `out`, or its diagnostics to
/// `err`, one a line.
pub fn one<I: Source, O: Sink, E: Sink>(
    alloc: Global,
    entry: &[u8],
    input: &mut I,
    out: &mut O,
    err: &mut E,
) -> Status
    ensures ends { EndsOne result entry.now
        (seen (I.left input.old) (I.left input.new) (I.faults input.old) (I.faults input.new))
        (seen (O.written out.old) (O.written out.new) (O.faults out.old) (O.faults out.new))
        (seen (E.written err.old) (E.written err.new) (E.faults err.old) (E.faults err.new)) }
    ensures out { leaves_out false result ≡ true → out.new ≡ out.old }
    ensures err { leaves_err false result ≡ true → err.new ≡ err.old }
    ensures input_never_falls { I.faults input.old ≤ I.faults input.new }
    ensures out_never_falls { O.faults out.old ≤ O.faults out.new }
    ensures err_never_falls { E.faults err.old ≤ E.faults err.new }
{
    match compiled(alloc, entry, input) {
        Ok(Compilation::Code(bytes)) => write_code(&bytes, out, err),
        Ok(Compilation::Diagnostics(lines)) => write_diagnostics(&lines, err),
        Err(refusal) => report(status_of(refusal), err),
    }
}

/// Reads the input and compiles it.
fn compiled<I: Source>(
    alloc: Global,
    entry: &[u8],
    input: &mut I,
) -> Result<Compilation, ReadRefusal>
    ensures ok { IfOk result (Answers entry.now
        (seen (I.left input.old) (I.left input.new) (I.faults input.old) (I.faults input.new))) }
    ensures err { IfErr result (λ refusal. Refuses refusal
        (seen (I.left input.old) (I.left input.new) (I.faults input.old) (I.faults input.new))) }
    ensures never_falls { I.faults input.old ≤ I.faults input.new }
{
    let text = read_all(alloc, input, MOST_BYTES)?;
    Ok(compile(alloc, entry, text.as_slice())?)
}

/// Writes the bytes of a module's words.
fn write_code<O: Sink, E: Sink>(bytes: &Bytes, out: &mut O, err: &mut E) -> Status
    ensures ends { EndsCode result
        (seen (O.written out.old) (O.written out.new) (O.faults out.old) (O.faults out.new))
        (seen (E.written err.old) (E.written err.new) (E.faults err.old) (E.faults err.new))
        bytes.now }
    ensures err { result ≡ Status.Done → err.new ≡ err.old }
    ensures out_never_falls { O.faults out.old ≤ O.faults out.new }
    ensures err_never_falls { E.faults err.old ≤ E.faults err.new }
{
    match write_all_of(out, bytes.as_slice()) {
        Ok(()) => Status::Done,
        Err(refusal) => report(
            Status::WriteFault {
                written: refusal.written,
            },
            err,
        ),
    }
}

/// Writes diagnostics.
fn write_diagnostics<E: Sink>(lines: &Bytes, err: &mut E) -> Status
    ensures ends { EndsDiagnostics result
        (seen (E.written err.old) (E.written err.new) (E.faults err.old) (E.faults err.new))
        lines.now }
    ensures never_falls { E.faults err.old ≤ E.faults err.new }
{
    match write_all_of(err, lines.as_slice()) {
        Ok(()) => Status::Diagnosed,
        Err(refusal) => Status::WriteFault {
            written: refusal.written,
        },
    }
}

fn status_of(refusal: ReadRefusal) -> Status
    ensures { result ≡ status_of refusal }
{
    match refusal {
        ReadRefusal::Fault => Status::ReadFault,
        ReadRefusal::TooLong => Status::InputTooLarge,
        ReadRefusal::NoMemory => Status::NoMemory,
    }
}
