//! Reading a source to its end.

ghost use Rattle.std.specs.Prelude.{◌≡◌, true, false, ℕ, ◌+◌, ◌<◌, ◌≤◌, List, [], ◌++◌, length, IfOk, OnOk, OnErr, IfSome, IsErrOf};
ghost use Rattle.sl_io.specs.Faults.{Rose};
ghost use Rattle.sl_io.specs.Source.{Gives, GivesSome, Reaches};

use crate::source::{Got, Source};
use sl_base::{Bytes, NoMemory};
use std::alloc::Global;

/// Why a source was not read to its end.
#[derive(Clone, Copy, Debug, PartialEq, Eq)]
pub enum ReadRefusal {
    /// The source had a fault.
    Fault,
    /// More bytes were left than were allowed.
    TooLong,
    NoMemory,
}

impl From<NoMemory> for ReadRefusal {
    ghost use Rattle.sl_io.specs.declared.read.ReadRefusal.{ReadRefusal};

    ghost from_gives = { λ _ refusal. refusal ≡ ReadRefusal.NoMemory };

    fn from(_: NoMemory) -> ReadRefusal {
        ReadRefusal::NoMemory
    }
}

/// How many bytes one read asks for at most.
const BUFFER: usize = 4096;

/// Reads once, as far as one byte more than `max` bytes in all, and keeps what was read behind
/// `held`. Answers whether there may be more.
fn read_some<I: Source>(
    src: &mut I,
    buffer: &mut [u8],
    held: &mut Bytes,
    max: usize,
) -> Result<bool, ReadRefusal>
    requires within { length held.old ≤ max }
    requires buffer { 0 < length buffer.old }
    ensures within { OnOk result (length held.new ≤ max) }
    ensures keeps { OnOk result (Reaches (I.left src.old) (I.left src.new) held.old held.new) }
    ensures more { result ≡ Ok true → length held.old < length held.new }
    ensures end { result ≡ Ok false → IfSome (I.left src.new) (λ rest. rest ≡ []) }
    ensures fault { IsErrOf result ReadRefusal.Fault → Rose (I.faults src.old) (I.faults src.new) }
    ensures too_long { IsErrOf result ReadRefusal.TooLong
        → (bytes : List ℕ) × (length held.old + length bytes ≡ max + 1)
        × Gives (I.left src.old) (I.left src.new) bytes }
    ensures err { OnErr result (GivesSome (I.left src.old) (I.left src.new)) }
    ensures never_falls { I.faults src.old ≤ I.faults src.new }
{
    let left = max - held.len();
    let room = left.min(buffer.len() - 1) + 1;
    match src.read(&mut buffer[..room]) {
        Got::Bytes(count) if left < count => Err(ReadRefusal::TooLong),
        Got::Bytes(count) => {
            held.extend_from_slice(&buffer[..count])?;
            Ok(true)
        }
        Got::End => Ok(false),
        Got::Failed => Err(ReadRefusal::Fault),
    }
}

/// All that is left of a source, to its end, where it is at most `max` bytes.
///
/// After `TooLong` one byte more than `max` was read. After `Fault` and `NoMemory` what was read is
/// gone.
pub fn read_all<I: Source>(alloc: Global, src: &mut I, max: usize) -> Result<Bytes, ReadRefusal>
    ensures ok { IfOk result (λ bytes. (length bytes ≤ max)
        × Gives (I.left src.old) (I.left src.new) bytes) }
    ensures to_the_end { OnOk result (IfSome (I.left src.new) (λ rest. rest ≡ [])) }
    ensures fault { IsErrOf result ReadRefusal.Fault → Rose (I.faults src.old) (I.faults src.new) }
    ensures too_long { IsErrOf result ReadRefusal.TooLong
        → (bytes : List ℕ) × (length bytes ≡ max + 1)
        × Gives (I.left src.old) (I.left src.new) bytes }
    ensures err { OnErr result (GivesSome (I.left src.old) (I.left src.new)) }
    ensures never_falls { I.faults src.old ≤ I.faults src.new }
{
    let mut held = Bytes::new(alloc);
    let mut buffer = [0; BUFFER];
    while read_some(src, &mut buffer, &mut held, max)? {}
    Ok(held)
}
