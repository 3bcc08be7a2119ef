//! A root over modules in memory that never fails.

ghost use Rattle.std.specs.Prelude.{◌≡◌, ◌≢◌, true, Some};
ghost use Rattle.sl_io.specs.Root.{Fetches};
ghost use Rattle.sl_roots.specs.Held.{held_answer};

use crate::held::fetch_held;
use sl_base::{Bytes, List, Name};
use sl_io::{Fetched, SourceRoot};
use std::alloc::Global;
use std::marker::Model;

/// A root of modules in memory that never fails.
#[derive(Debug, Drop)]
pub struct PlainRoot {
    files: List<(Name, Bytes)>,
}

impl Model for PlainRoot {
    ghost use Rattle.std.specs.Prelude.{List, ℕ};

    ghost Value = { List (List ℕ × List ℕ) };

    ghost view = { λ root. root.files };
}

impl PlainRoot {
    /// A root of these modules, of which the first one with a name counts.
    pub fn new(files: List<(Name, Bytes)>) -> PlainRoot
        ensures { result ≡ files }
    {
        PlainRoot { files }
    }
}

impl SourceRoot for PlainRoot {
    ghost files = { λ root. Some root };

    ghost steady = { λ _. true };

    ghost faults = { λ _. 0 };

    fn fetch(&mut self, alloc: Global, name: &Name, max: usize) -> Fetched
        ensures fetches { Fetches result max name.now (Some self.old) }
        ensures never_fails { result ≢ Fetched.Failed }
        ensures keeps { self.new ≡ self.old }
        ensures answer { result ≢ Fetched.NoMemory → result ≡ held_answer self.old name.now max }
    {
        fetch_held(alloc, &self.files, name, max)
    }
}
