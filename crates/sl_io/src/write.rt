//! Writing to a sink to the last byte.

ghost use Rattle.std.specs.Prelude.{◌≡◌, ◌<◌, ◌≤◌, length, take, OnOk, OnErr, IfErr};
ghost use Rattle.sl_io.specs.Faults.{Rose};
ghost use Rattle.sl_io.specs.Sink.{Gains};

use crate::sink::{Sink, Took};

/// A sink did not take all bytes. It took the first `written` of them.
#[derive(Clone, Copy, Debug, PartialEq, Eq)]
pub struct WriteRefusal {
    pub written: u64,
}

/// Writes all bytes, in as many pieces as the sink makes of them. Takes no memory.
pub fn write_all_of<O: Sink>(sink: &mut O, bytes: &[u8]) -> Result<(), WriteRefusal>
    ensures ok { OnOk result (Gains (O.written sink.old) (O.written sink.new) bytes.now) }
    ensures part { IfErr result (λ refusal. (refusal.written < length bytes.now)
        × Gains (O.written sink.old) (O.written sink.new) (take refusal.written bytes.now)) }
    ensures fault { OnErr result (Rose (O.faults sink.old) (O.faults sink.new)) }
    ensures never_falls { O.faults sink.old ≤ O.faults sink.new }
{
    let mut written = 0;
    while written < bytes.len() {
        match sink.write(&bytes[written..]) {
            Took::Bytes(count) => written += count,
            Took::Failed => {
                return Err(WriteRefusal {
                    written: written as u64,
                });
            }
        }
    }
    Ok(())
}
