//! A cycle of keys.

ghost use Rattle.std.specs.Prelude.{◌≡◌, ◌≢◌, ◌<◌, ◌++◌, [], length, take, drop};

use std::marker::Model;

/// A list of keys that is not empty: each depends on the next, and the last on the first.
#[derive(Debug, Drop)]
pub struct Cycle<K: Drop> {
    keys: Vec<K>,
}

impl<K: Drop> Model for Cycle<K> {
    ghost use Rattle.std.specs.Prelude.{◌≢◌, List, []};

    ghost Value = { List K };

    ghost view = { λ c. c.keys.items };

    ghost invariant = { λ c. c.keys.items ≢ [] };
}

impl<K: Drop> Cycle<K> {
    /// The cycle of these keys.
    pub fn from_vec(keys: Vec<K>) -> Cycle<K>
        requires { keys.items ≢ [] }
        ensures { result ≡ keys.items }
    {
        Cycle { keys }
    }

    /// The keys, from the first on.
    pub fn as_slice(&self) -> &[K]
        ensures keys { result.now ≡ self.now }
        ensures some { self.now ≢ [] }
    {
        self.keys.as_slice()
    }

    /// Begins the cycle at the key of this place, which counts from 0. It takes no memory.
    pub fn rotate_left(&mut self, at: usize)
        requires { at < length self.old }
        ensures { self.new ≡ drop at self.old ++ take at self.old }
    {
        self.keys.as_mut_slice().rotate_left(at);
    }
}
