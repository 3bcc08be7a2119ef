//! A root over a folder.

ghost use Rattle.std.specs.Prelude.{◌≡◌, ◌≢◌, ◌≤◌, false, None};
ghost use Rattle.sl_io.specs.Faults.{Rose, one_more};
ghost use Rattle.sl_io.specs.Root.{Fetches};

use sl_base::{Bytes, Name};
use sl_io::{Fetched, ReadRefusal, SourceRoot, StdSource, read_all};
use std::alloc::Global;
use std::io::ErrorKind;
use std::marker::Model;
use std::rt::Files;
use std::{fs, str};

/// A folder whose files `NAME.slang` are the modules. It tells nothing of what it holds, and is not
/// steady. Contracts see it as the count of faults.
#[derive(Drop)]
pub struct DirRoot<H> {
    rt: H,
    folder: String,
    faults: u64,
}

impl<H> Model for DirRoot<H> {
    ghost use Rattle.std.specs.Prelude.{ℕ};

    ghost Value = { ℕ };

    ghost view = { λ root. root.faults };
}

impl<H> DirRoot<H> {
    /// The root of a folder, which is read through `rt`.
    pub fn new(rt: H, folder: String) -> DirRoot<H>
        ensures { result ≡ 0 }
    {
        DirRoot {
            rt,
            folder,
            faults: 0,
        }
    }
}

impl<H: Files + Drop> SourceRoot for DirRoot<H> {
    ghost files = { λ _. None };

    ghost steady = { λ _. false };

    ghost faults = { λ root. root };

    /// A file that is not there is `Absent`, and every other error is `Failed`.
    fn fetch(&mut self, alloc: Global, name: &Name, max: usize) -> Fetched
        ensures fetches { Fetches result max name.now None }
        ensures failed { result ≡ Fetched.Failed → Rose self.old self.new }
        ensures never_falls { self.old ≤ self.new }

        ensures counts { result ≡ Fetched.Failed → self.new ≡ one_more self.old }
        ensures no_other { result ≢ Fetched.Failed → self.new ≡ self.old }
    {
        let answer = fetch_file(&self.rt, alloc, self.folder.as_str(), name, max);
        if matches!(answer, Fetched::Failed) {
            self.faults = self.faults.saturating_add(1);
        }
        answer
    }
}

/// The bytes of the file `FOLDER/NAME.slang`. Of a file that has more than `max` bytes only one more
/// is read.
fn fetch_file<H: Files>(rt: &H, alloc: Global, folder: &str, name: &Name, max: usize) -> Fetched
    ensures { Fetches result max name.now None }
{
    let Ok(name) = str::from_utf8(name.bytes()) else {
        return Fetched::Failed;
    };
    let Ok(path) = format!(in alloc; "{folder}/{name}.slang") else {
        return Fetched::NoMemory;
    };
    let file = match fs::open(rt, path.as_str()) {
        Ok(file) => file,
        Err(error) if error.kind() == ErrorKind::NotFound => return Fetched::Absent,
        Err(_) => return Fetched::Failed,
    };
    match read_all(alloc, &mut StdSource::new(file), max) {
        Ok(bytes) => Fetched::Found(bytes),
        Err(ReadRefusal::TooLong) => Fetched::TooLarge,
        Err(ReadRefusal::Fault) => Fetched::Failed,
        Err(ReadRefusal::NoMemory) => Fetched::NoMemory,
    }
}
