//! The trait of places that modules come from.

ghost use Rattle.std.specs.Prelude.{◌≡◌, ℕ, ◌≤◌, Bool, IsTrue, List, Option};

use sl_base::{Bytes, Name};
use std::alloc::Global;

/// What a root answers for a name: the module's bytes, or why there are none.
#[derive(Debug, Drop)]
pub enum Fetched {
    Found(Bytes),
    Absent,
    TooLarge,
    Failed,
    NoMemory,
}

/// A place that modules come from, such as a folder.
pub trait SourceRoot: Drop {
    ghost use Rattle.sl_io.specs.Faults.{Rose};
    ghost use Rattle.sl_io.specs.Root.{Fetches};

    /// The modules that it holds, where it tells them: pairs of a name and bytes, of which the first
    /// one with a name counts.
    ghost files: { Self → Option (List (List ℕ × List ℕ)) };

    /// Whether no fetch changes what it holds.
    ghost steady: { Self → Bool };

    /// How many faults there were.
    ghost faults: { Self → ℕ };

    /// The bytes of a module, of at most `max` bytes. `Absent` comes only where the root has no module
    /// of the name, `TooLarge` only where the module has more than `max` bytes, and `Failed` only
    /// where the count of faults rose. In a root that is not steady a fetch may change what later
    /// fetches find.
    fn fetch(&mut self, alloc: Global, name: &Name, max: usize) -> Fetched
        ensures fetches { Fetches result max name.now (files self.old) }
        ensures failed { result ≡ Fetched.Failed → Rose (faults self.old) (faults self.new) }
        ensures never_falls { faults self.old ≤ faults self.new }
        ensures as_steady { steady self.new ≡ steady self.old }
        ensures steady { IsTrue (steady self.old) → files self.new ≡ files self.old };
}

// Roots of several kinds can stand in one list where each is boxed.
impl SourceRoot for Box<dyn SourceRoot> {
    ghost files = { λ b. (SourceRoot-box b).files b.value };

    ghost steady = { λ b. (SourceRoot-box b).steady b.value };

    ghost faults = { λ b. (SourceRoot-box b).faults b.value };

    fn fetch(&mut self, alloc: Global, name: &Name, max: usize) -> Fetched {
        (**self).fetch(alloc, name, max)
    }
}
