//! A root over modules in memory, which fails where it is told to.

ghost use Rattle.std.specs.Prelude.{◌≡◌, ◌≢◌, ◌≤◌, true, Some};
ghost use Rattle.sl_io.specs.Faults.{Rose};
ghost use Rattle.sl_io.specs.Root.{Fetches};
ghost use Rattle.sl_roots.specs.MemoryRoot.{memory_answer, after_fetch};

use crate::held::fetch_held;
use sl_base::{Bytes, List, Name};
use sl_io::{Fetched, SourceRoot};
use std::alloc::Global;
use std::marker::Model;

/// A root that keeps its modules in memory.
#[derive(Debug, Drop)]
pub struct MemoryRoot {
    files: List<(Name, Bytes)>,
    fail_at: List<u64>,
    calls: u64,
    faults: u64,
}

impl Model for MemoryRoot {
    ghost use Rattle.sl_roots.specs.MemoryRoot.{MemoryState};

    ghost Value = { MemoryState };

    ghost view = { λ root. record {
      files = root.files;
      fail_at = root.fail_at;
      calls = root.calls;
      faults = root.faults;
    } };
}

impl MemoryRoot {
    /// A root of these modules, of which the first one with a name counts. The fetches whose numbers
    /// `fail_at` lists, counted from 1, fail, and no other fetch does.
    pub fn new(files: List<(Name, Bytes)>, fail_at: List<u64>) -> MemoryRoot
        ensures { result ≡ record { files = files; fail_at = fail_at; calls = 0; faults = 0 } }
    {
        MemoryRoot {
            files,
            fail_at,
            calls: 0,
            faults: 0,
        }
    }
}

impl SourceRoot for MemoryRoot {
    ghost files = { λ root. Some root.files };

    ghost steady = { λ _. true };

    ghost faults = { λ root. root.faults };

    fn fetch(&mut self, alloc: Global, name: &Name, max: usize) -> Fetched
        ensures fetches { Fetches result max name.now (Some self.old.files) }
        ensures failed { result ≡ Fetched.Failed → Rose self.old.faults self.new.faults }
        ensures never_falls { self.old.faults ≤ self.new.faults }
        ensures keeps { self.new.files ≡ self.old.files }

        ensures answer { result ≢ Fetched.NoMemory
            → result ≡ memory_answer self.old name.now max }
        ensures after { self.new ≡ after_fetch self.old }
    {
        self.calls = self.calls.saturating_add(1);
        if self.fail_at.as_slice().contains(&self.calls) {
            self.faults = self.faults.saturating_add(1);
            return Fetched::Failed;
        }
        fetch_held(alloc, &self.files, name, max)
    }
}
