//! The order of keys, and copies of answers.

use crate::{Answer, DeclPath, Key, Kind};
use qe_rules::Cycle;
use sl_base::{Bytes, Diag, List, Name, Site};
use std::alloc::Global;
use std::process::Abort;
use std::test::Fail;

/// The name of a text.
fn name_of(alloc: Global, text: &str) -> Result<Name, Fail> {
    Ok(Name::new(alloc, text.as_bytes())?)
}

/// The key of an alias at the top of a module.
fn alias_key(alloc: Global, module: &str, name: &str) -> Result<Key, Fail> {
    let module = name_of(alloc, module)?;
    let name = name_of(alloc, name)?;
    Ok(Key::of_path(alloc, Kind::Alias, DeclPath::top(alloc, &module, &name)?))
}

/// The key of a constant at the top of a module.
fn const_key(alloc: Global, module: &str, name: &str) -> Result<Key, Fail> {
    let module = name_of(alloc, module)?;
    let name = name_of(alloc, name)?;
    Ok(Key::of_path(alloc, Kind::Const, DeclPath::top(alloc, &module, &name)?))
}

/// Stops the test unless one key stands before another.
fn expect_less(rt: &impl Abort, less: &Key, greater: &Key) {
    assert!(rt; less < greater, "{less:?} {greater:?}");
}

#[test]
fn keys_are_ordered_by_their_modules_first(rt: HostRuntime) -> Result<(), Fail> {
    let alloc = rt.alloc();
    let last_of_module = alias_key(alloc, "m", "B")?;
    let other = Key::of_module(alloc, Kind::Syntax, &name_of(alloc, "n")?)?;
    expect_less(&rt, &last_of_module, &other);
    Ok(())
}

#[test]
fn keys_of_a_module_are_ordered_by_their_paths(rt: HostRuntime) -> Result<(), Fail> {
    let alloc = rt.alloc();
    let imports = Key::of_module(alloc, Kind::Imports, &name_of(alloc, "m")?)?;
    let first = const_key(alloc, "m", "A")?;
    let second = alias_key(alloc, "m", "B")?;
    expect_less(&rt, &imports, &first);
    expect_less(&rt, &first, &second);
    Ok(())
}

#[test]
fn keys_of_a_path_are_ordered_by_their_kinds(rt: HostRuntime) -> Result<(), Fail> {
    let alloc = rt.alloc();
    let alias = alias_key(alloc, "m", "A")?;
    let constant = const_key(alloc, "m", "A")?;
    expect_less(&rt, &alias, &constant);
    assert!(rt; constant.copy(alloc)? == constant);
    Ok(())
}

#[test]
fn the_copy_of_a_circular_answer_tells_the_cycle(rt: HostRuntime) -> Result<(), Fail> {
    let alloc = rt.alloc();
    let cycle = Cycle::from_vec(vec![in alloc; const_key(alloc, "m", "A")?]?);
    let answer = Answer::circular(alloc, &cycle)?;
    match answer.copy(alloc)? {
        Answer::Circular(copy) => assert_eq!(rt; copy.get().as_slice().len(), 1),
        _ => panic!(rt; "no cycle"),
    }
    Ok(())
}

/// That no module has the name `q`.
fn no_module(alloc: Global) -> Result<Diag, Fail> {
    let mut args = List::new(alloc);
    args.push(Bytes::from_slice(alloc, b"q")?)?;
    Ok(Diag {
        site: Site::Request,
        code: 201,
        args,
    })
}

#[test]
fn the_copy_of_a_diagnostic_says_the_same(rt: HostRuntime) -> Result<(), Fail> {
    let alloc = rt.alloc();
    let answer = Answer::Bad(no_module(alloc)?);
    match answer.copy(alloc)? {
        Answer::Bad(copy) => assert_eq!(rt; copy.code, 201),
        _ => panic!(rt; "nothing is bad"),
    }
    Ok(())
}
