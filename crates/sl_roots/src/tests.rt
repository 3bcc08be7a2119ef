use crate::{DirRoot, LoadRefusal, MemoryRoot, PlainRoot, SourceSet, load};
use sl_base::{Bytes, List, Name};
use sl_io::{Fetched, SourceRoot};
use std::alloc::Global;
use std::fs;
use std::rt::Files;
use std::test::Fail;

/// Names of a test's own.
fn names_of(alloc: Global, words: &[&str]) -> Result<List<Name>, Fail> {
    let mut names = List::new(alloc);
    for word in words {
        names.push(Name::new(alloc, word.as_bytes())?)?;
    }
    Ok(names)
}

/// Modules of a test's own, as pairs of a name and bytes.
fn files_of(alloc: Global, files: &[(&str, &str)]) -> Result<List<(Name, Bytes)>, Fail> {
    let mut list = List::new(alloc);
    for (name, text) in files {
        let name = Name::new(alloc, name.as_bytes())?;
        list.push((name, Bytes::from_slice(alloc, text.as_bytes())?))?;
    }
    Ok(list)
}

/// A root in memory whose fetches of these numbers fail.
fn memory(alloc: Global, files: &[(&str, &str)], fail_at: &[u64]) -> Result<MemoryRoot, Fail> {
    let fail_at = List::from_slice(alloc, fail_at)?;
    Ok(MemoryRoot::new(files_of(alloc, files)?, fail_at))
}

/// A set as text: `NAME=BYTES` for each module, then `NAME?` for each absent name.
fn told_set(alloc: Global, set: &SourceSet) -> Result<Bytes, Fail> {
    let mut text = Bytes::new(alloc);
    for file in set.modules.as_slice() {
        text.extend_from_slice(file.0.bytes())?;
        text.push(b'=')?;
        text.extend_from_slice(file.1.as_slice())?;
        text.push(b' ')?;
    }
    for name in set.absent.as_slice() {
        text.extend_from_slice(name.bytes())?;
        text.extend_from_slice(b"? ")?;
    }
    Ok(text)
}

/// A refusal as text.
fn told_refusal(alloc: Global, refusal: &LoadRefusal) -> Result<Bytes, Fail> {
    let mut text = Bytes::new(alloc);
    match refusal {
        LoadRefusal::Fault { root, name } => {
            text.extend_from_slice(format!(in alloc; "fault of root {root}: ")?.as_bytes())?;
            text.extend_from_slice(name.bytes())?;
        }
        LoadRefusal::ModuleTooLarge { name } => {
            text.extend_from_slice(b"too large: ")?;
            text.extend_from_slice(name.bytes())?;
        }
        LoadRefusal::TooManyModules => text.extend_from_slice(b"too many")?,
        LoadRefusal::NoMemory => text.extend_from_slice(b"no memory")?,
    }
    Ok(text)
}

/// What two roots give for these names, as text.
fn load_from(
    alloc: Global,
    near: MemoryRoot,
    far: MemoryRoot,
    words: &[&str],
) -> Result<Bytes, Fail> {
    let mut roots: Vec<Box<dyn SourceRoot>> = Vec::new(alloc);
    roots.push(Box::new(alloc, near)?)?;
    roots.push(Box::new(alloc, far)?)?;
    match load(alloc, &mut roots, &names_of(alloc, words)?) {
        Ok(set) => told_set(alloc, &set),
        Err(refusal) => told_refusal(alloc, &refusal),
    }
}

#[test]
fn takes_each_name_from_the_first_root_that_has_it(rt: HostRuntime) -> Result<(), Fail> {
    let alloc = rt.alloc();
    let near = memory(alloc, &[("m", ""), ("n", "near"), ("n", "hidden")], &[])?;
    let far = memory(alloc, &[("n", "far"), ("f", "last")], &[])?;
    let told = load_from(alloc, near, far, &["f", "q", "n", "f", "q", "m"])?;
    assert_eq!(rt; told.as_slice(), b"f=last n=near m= q? ".as_slice());
    Ok(())
}

#[test]
fn tells_the_first_fault(rt: HostRuntime) -> Result<(), Fail> {
    let alloc = rt.alloc();
    // The second root is not asked for what the first one has.
    let near = memory(alloc, &[("m", "near")], &[])?;
    let told = load_from(alloc, near, memory(alloc, &[], &[1])?, &["m"])?;
    assert_eq!(rt; told.as_slice(), b"m=near ".as_slice());
    let near = memory(alloc, &[("m", "near")], &[])?;
    let told = load_from(
        alloc,
        near,
        memory(alloc, &[("q", "far")], &[1])?,
        &["m", "q"],
    )?;
    assert_eq!(rt; told.as_slice(), b"fault of root 2: q".as_slice());
    // A root that fails decides, though the next one has the module.
    let near = memory(alloc, &[("m", "near")], &[1])?;
    let told = load_from(alloc, near, memory(alloc, &[("m", "far")], &[])?, &["m"])?;
    assert_eq!(rt; told.as_slice(), b"fault of root 1: m".as_slice());
    // Each name is fetched once, so no root is asked more often.
    let near = memory(alloc, &[("m", "near")], &[3])?;
    let told = load_from(
        alloc,
        near,
        memory(alloc, &[], &[2])?,
        &["m", "q", "m", "q"],
    )?;
    assert_eq!(rt; told.as_slice(), b"m=near q? ".as_slice());
    Ok(())
}

/// A root that holds one of its modules at a time: each fetch moves on to the next one.
#[derive(Debug, Drop)]
struct Turning {
    files: List<(Name, Bytes)>,
    fetches: usize,
}

impl SourceRoot for Turning {
    ghost use Rattle.std.specs.Prelude.{None, false};

    ghost files = { λ _. None };

    ghost steady = { λ _. false };

    ghost faults = { λ _. 0 };

    fn fetch(&mut self, alloc: Global, name: &Name, max: usize) -> Fetched {
        let at = self.fetches;
        self.fetches = at.saturating_add(1);
        let Some(file) = self.files.as_slice().get(at) else {
            return Fetched::Absent;
        };
        if file.0.bytes() != name.bytes() {
            return Fetched::Absent;
        }
        if max < file.1.len() {
            return Fetched::TooLarge;
        }
        match Bytes::from_slice(alloc, file.1.as_slice()) {
            Ok(bytes) => Fetched::Found(bytes),
            Err(_) => Fetched::NoMemory,
        }
    }
}

#[test]
fn fetches_once_from_a_root_that_changes(rt: HostRuntime) -> Result<(), Fail> {
    let alloc = rt.alloc();
    let files = files_of(alloc, &[("a", "first"), ("b", "second")])?;
    let mut roots: Vec<Box<dyn SourceRoot>> = Vec::new(alloc);
    roots.push(Box::new(alloc, Turning { files, fetches: 0 })?)?;
    let names = names_of(alloc, &["a", "a", "b"])?;
    let Ok(set) = load(alloc, &mut roots, &names) else {
        return Err(Fail::new("not loaded"));
    };
    assert_eq!(rt;
        told_set(alloc, &set)?.as_slice(),
        b"a=first b=second ".as_slice()
    );
    Ok(())
}

/// Loads a module of so many bytes from the first of two roots, of which the second has a small
/// module of the same name.
fn load_large(alloc: Global, count: usize) -> Result<Result<SourceSet, LoadRefusal>, Fail> {
    let mut files = List::new(alloc);
    let large = List::from_vec(vec![in alloc; 32u8; count]?);
    files.push((Name::new(alloc, b"m")?, large))?;
    let small = files_of(alloc, &[("m", "small")])?;
    let mut roots: Vec<Box<dyn SourceRoot>> = Vec::new(alloc);
    roots.push(Box::new(alloc, PlainRoot::new(files))?)?;
    roots.push(Box::new(alloc, PlainRoot::new(small))?)?;
    Ok(load(alloc, &mut roots, &names_of(alloc, &["m"])?))
}

#[test]
fn keeps_the_limit_on_bytes(rt: HostRuntime) -> Result<(), Fail> {
    let alloc = rt.alloc();
    assert!(rt; load_large(alloc, 262_144)?.is_ok());
    let refused = load_large(alloc, 262_145)?;
    assert!(rt; matches!(refused, Err(LoadRefusal::ModuleTooLarge { .. })));
    Ok(())
}

/// Loads so many modules.
fn load_many(alloc: Global, count: u32) -> Result<Result<SourceSet, LoadRefusal>, Fail> {
    let mut files = List::new(alloc);
    let mut names = names_of(alloc, &["q"])?;
    for number in 0..count {
        let name = format!(in alloc; "m{number}")?;
        names.push(Name::new(alloc, name.as_bytes())?)?;
        files.push((Name::new(alloc, name.as_bytes())?, Bytes::new(alloc)))?;
    }
    let mut roots: Vec<Box<dyn SourceRoot>> = Vec::new(alloc);
    roots.push(Box::new(alloc, PlainRoot::new(files))?)?;
    Ok(load(alloc, &mut roots, &names))
}

#[test]
fn keeps_the_limit_on_modules(rt: HostRuntime) -> Result<(), Fail> {
    let alloc = rt.alloc();
    assert!(rt; load_many(alloc, 256)?.is_ok());
    assert!(rt; matches!(load_many(alloc, 257)?, Err(LoadRefusal::TooManyModules)));
    Ok(())
}

/// What a folder has for a name, as text.
fn fetched_from<H: Files + Drop>(
    alloc: Global,
    root: &mut DirRoot<H>,
    name: &str,
) -> Result<Bytes, Fail> {
    let name = Name::new(alloc, name.as_bytes())?;
    match root.fetch(alloc, &name, 5) {
        Fetched::Found(bytes) => Ok(bytes),
        Fetched::Absent => Ok(Bytes::from_slice(alloc, b"absent")?),
        Fetched::TooLarge => Ok(Bytes::from_slice(alloc, b"too large")?),
        Fetched::Failed => Ok(Bytes::from_slice(alloc, b"failed")?),
        Fetched::NoMemory => Ok(Bytes::from_slice(alloc, b"no memory")?),
    }
}

#[test]
fn reads_files_of_a_folder(rt: HostRuntime) -> Result<(), Fail> {
    let alloc = rt.alloc();
    fs::create_dir(&rt, "sources")?;
    fs::create_dir(&rt, "sources/folder.slang")?;
    fs::write(&rt, "sources/small.slang", "hello")?;
    fs::write(&rt, "sources/large.slang", "hello!")?;
    let mut root = DirRoot::new(rt.clone()?, String::from_str(alloc, "sources")?);
    for (name, want) in [
        ("small", "hello"),
        ("large", "too large"),
        ("missing", "absent"),
        ("folder", "failed"),
    ] {
        let told = fetched_from(alloc, &mut root, name)?;
        assert_eq!(rt; told.as_slice(), want.as_bytes(), "{name}");
    }
    fs::remove_dir_all(&rt, "sources")?;
    Ok(())
}
