//! What is left of bytes that are given in pieces.

ghost use Rattle.std.specs.Prelude.{◌≡◌, length, take, drop, min};

use sl_base::Bytes;
use std::marker::Model;

/// The bytes that are left.
#[derive(Debug, Drop)]
pub struct Rest {
    bytes: Bytes,
    at: usize,
}

impl Model for Rest {
    ghost use Rattle.std.specs.Prelude.{List, ℕ, ◌≤◌, length, drop};

    ghost Value = { List ℕ };

    ghost view = { λ rest. drop rest.at rest.bytes };

    ghost invariant = { λ rest. rest.at ≤ length rest.bytes };
}

impl Rest {
    /// All of these bytes.
    pub fn new(bytes: Bytes) -> Rest
        ensures { result ≡ bytes }
    {
        Rest { bytes, at: 0 }
    }

    /// Gives the next bytes, at most `most` and at most as many as the buffer holds.
    pub fn give(&mut self, buf: &mut [u8], most: usize) -> usize
        ensures count { result ≡ min (min most (length buf.old)) (length self.old) }
        ensures bytes { take result buf.new ≡ take result self.old }
        ensures rest { self.new ≡ drop result self.old }
    {
        let rest = &self.bytes.as_slice()[self.at..];
        let count = most.min(buf.len()).min(rest.len());
        buf[..count].copy_from_slice(&rest[..count]);
        self.at += count;
        count
    }
}
