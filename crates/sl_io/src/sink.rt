//! The trait of outputs.

ghost use Rattle.std.specs.Prelude.{◌≡◌, ℕ, ◌<◌, ◌≤◌, List, length, Option};

/// What a write took: the number of bytes, or a fault.
#[derive(Clone, Copy, Debug, PartialEq, Eq)]
pub enum Took {
    Bytes(usize),
    Failed,
}

/// An output. A write takes the first bytes of a piece, at least one.
pub trait Sink {
    ghost use Rattle.sl_io.specs.Faults.{Rose};
    ghost use Rattle.sl_io.specs.Sink.{Takes};

    /// The bytes that were written, where the object tells them.
    ghost written: { Self → Option (List ℕ) };

    /// How many faults there were.
    ghost faults: { Self → ℕ };

    /// Writes a piece that is not empty. `Failed` adds nothing and comes only where the count of
    /// faults rose; a sink that takes nothing of a piece counts a fault.
    fn write(&mut self, bytes: &[u8]) -> Took
        requires { 0 < length bytes.now }
        ensures takes { Takes result bytes.now (written self.old) (written self.new) }
        ensures failed { result ≡ Took.Failed → Rose (faults self.old) (faults self.new) }
        ensures never_falls { faults self.old ≤ faults self.new };
}
