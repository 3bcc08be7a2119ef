ghost use Rattle.std.specs.Prelude.{◌≡◌, ◌≤◌, length};
ghost use Rattle.sl_io.specs.Root.{Fetches};

use crate::{Fetched, SourceRoot};
use sl_base::{Bytes, Name};
use std::alloc::Global;
use std::test::Fail;

/// A root of one module.
#[derive(Debug, Drop)]
struct OneModule {
    name: Name,
    bytes: Bytes,
}

impl SourceRoot for OneModule {
    ghost use Rattle.std.specs.Prelude.{[], ◌∷◌, Some, true};

    ghost files = { λ root. Some ((root.name, root.bytes) ∷ []) };

    ghost steady = { λ _. true };

    ghost faults = { λ _. 0 };

    fn fetch(&mut self, alloc: Global, name: &Name, max: usize) -> Fetched {
        if name.bytes() != self.name.bytes() {
            return Fetched::Absent;
        }
        if max < self.bytes.len() {
            return Fetched::TooLarge;
        }
        match Bytes::from_slice(alloc, self.bytes.as_slice()) {
            Ok(bytes) => Fetched::Found(bytes),
            Err(_) => Fetched::NoMemory,
        }
    }
}

/// What one root of many answers.
fn fetch_from<R: SourceRoot>(root: &mut R, alloc: Global, name: &Name, max: usize) -> Fetched
    ensures { Fetches result max name.now (R.files root.old) }
{
    root.fetch(alloc, name, max)
}

/// The first root's answer that is not `Absent`.
fn fetch_first<R: SourceRoot>(
    roots: &mut Vec<R>,
    alloc: Global,
    name: &Name,
    max: usize,
) -> Fetched {
    for at in 0..roots.len() {
        match fetch_from(&mut roots[at], alloc, name, max) {
            Fetched::Absent => {}
            answer => return answer,
        }
    }
    Fetched::Absent
}

#[test]
fn fetches_from_boxed_roots(rt: HostRuntime) -> Result<(), Fail> {
    let alloc = rt.alloc();
    let mut roots: Vec<Box<dyn SourceRoot>> = Vec::new(alloc);
    for (name, text) in [(b"first", b"aaaa"), (b"other", b"bbbb")] {
        let root = OneModule {
            name: Name::new(alloc, name)?,
            bytes: Bytes::from_slice(alloc, text)?,
        };
        roots.push(Box::new(alloc, root)?)?;
    }
    let other = Name::new(alloc, b"other")?;
    let answer = fetch_first(&mut roots, alloc, &other, 4);
    let Fetched::Found(bytes) = answer else {
        return Err(Fail::new("not found"));
    };
    assert_eq!(rt; bytes.as_slice(), b"bbbb".as_slice());
    assert!(rt; matches!(fetch_first(&mut roots, alloc, &other, 3), Fetched::TooLarge));
    let third = Name::new(alloc, b"third")?;
    assert!(rt; matches!(fetch_first(&mut roots, alloc, &third, 4), Fetched::Absent));
    Ok(())
}
