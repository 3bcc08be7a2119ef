//! What `check` writes.

use crate::Status;
use crate::tests::{Ended, FIRST, Faults, NO_FAULTS, expect_ending, run_over};
use sl_base::{Bytes, List, Name};
use sl_roots::MemoryRoot;
use std::alloc::Global;
use std::process::Abort;
use std::test::Fail;

/// A root of one module, or of none, whose fetches of these numbers fail.
fn root_of(
    alloc: Global,
    module: Option<(&str, &[u8])>,
    fail_at: &[u64],
) -> Result<MemoryRoot, Fail> {
    let mut files = List::new(alloc);
    if let Some((name, text)) = module {
        let name = Name::new(alloc, name.as_bytes())?;
        files.push((name, Bytes::from_slice(alloc, text)?))?;
    }
    Ok(MemoryRoot::new(files, List::from_slice(alloc, fail_at)?))
}

/// Checks the module of this name over two roots. The input fails at once where it is read.
fn check(
    alloc: Global,
    name: &str,
    near: MemoryRoot,
    far: MemoryRoot,
    out: &[u64],
) -> Result<Ended, Fail> {
    let mut roots = Vec::new(alloc);
    roots.push(near)?;
    roots.push(far)?;
    let faults = Faults {
        input: &[1],
        out,
        ..NO_FAULTS
    };
    run_over(alloc, &mut roots, &["check", name], b"", faults)
}

#[test]
fn modules_without_tokens_are_loaded(rt: HostRuntime) -> Result<(), Fail> {
    let alloc = rt.alloc();
    for text in [
        b"".as_slice(),
        b" \r\n\t\n",
        b"\xEF\xBB\xBF// one\n/* two */",
    ] {
        let near = root_of(alloc, Some(("m", text)), &[])?;
        let ended = check(alloc, "m", near, root_of(alloc, None, &[])?, &[])?;
        expect_ending(&rt, &ended, Status::Done, b"1:1 load ok\nworked 2\n", "");
    }
    Ok(())
}

#[test]
fn a_result_that_is_not_taken_is_told(rt: HostRuntime) -> Result<(), Fail> {
    let alloc = rt.alloc();
    let near = root_of(alloc, Some(("m", b"")), &[])?;
    let ended = check(alloc, "m", near, root_of(alloc, None, &[])?, &[2])?;
    let status = Status::WriteFault { written: 5 };
    expect_ending(&rt, &ended, status, b"1:1 l", "slangrun: write failed\n");
    Ok(())
}

#[test]
fn faults_of_roots_are_told(rt: HostRuntime) -> Result<(), Fail> {
    let alloc = rt.alloc();
    // The second root is not asked for what the first one has.
    let near = root_of(alloc, Some(("m", b"")), &[])?;
    let ended = check(alloc, "m", near, root_of(alloc, None, &[1])?, &[])?;
    expect_ending(&rt, &ended, Status::Done, b"1:1 load ok\nworked 2\n", "");

    let near = root_of(alloc, Some(("m", b"")), &[])?;
    let far = root_of(alloc, Some(("n", b"")), &[1])?;
    let ended = check(alloc, "n", near, far, &[])?;
    let status = Status::SourceFault {
        root: 2,
        name: Name::new(alloc, b"n")?,
    };
    expect_ending(
        &rt,
        &ended,
        status,
        b"",
        "slangrun: root 2 failed on n.slang\n",
    );
    Ok(())
}
