//! The trait of inputs.

ghost use Rattle.std.specs.Prelude.{◌≡◌, ℕ, ◌<◌, ◌≤◌, List, length, Option};

/// What a read gave: the number of bytes, the end, or a fault.
#[derive(Clone, Copy, Debug, PartialEq, Eq)]
pub enum Got {
    Bytes(usize),
    End,
    Failed,
}

/// An input. A read into a buffer gives the next bytes, from one to as many as the buffer holds.
pub trait Source {
    ghost use Rattle.sl_io.specs.Faults.{Rose};
    ghost use Rattle.sl_io.specs.Source.{Reads};

    /// The bytes that are left, where the object tells them.
    ghost left: { Self → Option (List ℕ) };

    /// How many faults there were.
    ghost faults: { Self → ℕ };

    /// Reads into a buffer that is not empty. `End` comes only where nothing is left; `Failed` takes
    /// nothing and comes only where the count of faults rose.
    fn read(&mut self, buf: &mut [u8]) -> Got
        requires { 0 < length buf.old }
        ensures reads { Reads result (length buf.old) buf.new (left self.old) (left self.new) }
        ensures failed { result ≡ Got.Failed → Rose (faults self.old) (faults self.new) }
        ensures never_falls { faults self.old ≤ faults self.new };
}
