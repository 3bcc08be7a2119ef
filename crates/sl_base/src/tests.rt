ghost use Rattle.std.specs.Prelude.{◌≡◌, IsTrue, IfOk, length};
ghost use Rattle.def_slang.specs.Diagnostic.{takes};

use crate::{Bytes, Diag, List, Name, NameRefusal, NoMemory, Place, Site};
use std::alloc::Global;
use std::process::Abort;
use std::test::Fail;

#[test]
fn lists_keep_what_was_put_in_order(rt: HostRuntime) -> Result<(), Fail> {
    let mut list = Bytes::from_slice(rt.alloc(), b"ab")?;
    list.push(b'c')?;
    list.extend_from_slice(b"de")?;
    assert_eq!(rt; list.as_slice(), b"abcde".as_slice());
    assert_eq!(rt; list.len(), 5);
    assert!(rt; !list.is_empty());
    assert!(rt; Bytes::new(rt.alloc()).is_empty());
    Ok(())
}

#[test]
fn names_are_words_of_up_to_255_bytes(rt: HostRuntime) -> Result<(), Fail> {
    for bytes in [b"a1".as_slice(), [b'a'; 255].as_slice()] {
        let name = Name::new(rt.alloc(), bytes)?;
        assert_eq!(rt; name.bytes(), bytes);
        assert_eq!(rt; name.copy(rt.alloc())?, name);
    }
    for bytes in [b"1a".as_slice(), b"".as_slice(), [b'a'; 256].as_slice()] {
        assert_eq!(rt;
            Name::new(rt.alloc(), bytes).err(),
            Some(NameRefusal::NotAName)
        );
    }
    Ok(())
}

#[test]
fn names_are_ordered_by_their_bytes(rt: HostRuntime) -> Result<(), Fail> {
    for (less, greater) in [("a", "a1"), ("B", "a"), ("_", "a"), ("a9", "aa")] {
        let less = Name::new(rt.alloc(), less.as_bytes())?;
        let greater = Name::new(rt.alloc(), greater.as_bytes())?;
        assert!(rt; less < greater, "{less:?} {greater:?}");
    }
    Ok(())
}

#[test]
fn diagnostics_tell_site_code_and_text(rt: HostRuntime) -> Result<(), Fail> {
    let wanted = "m:2:22: error E302: cannot convert bool to int";
    expect_line(&rt, Some(("m", 2, 22)), 302, &["bool", "int"], wanted)?;
    let wanted = "m:3:18: error E306: call of h is ambiguous between 1 and 2";
    expect_line(&rt, Some(("m", 3, 18)), 306, &["h", "1", "2"], wanted)?;
    let wanted = "m:1:86: error E111: nesting deeper than 64";
    expect_line(&rt, Some(("m", 1, 86)), 111, &[], wanted)?;
    let wanted = "input:1:1: error E100: form not built yet";
    expect_line(&rt, Some(("input", 1, 1)), 100, &[], wanted)?;
    let wanted = "m:1:18: error E901: circular: m.A -> m.B -> m.A";
    expect_line(&rt, Some(("m", 1, 18)), 901, &["m.A", "m.B"], wanted)
}

#[test]
fn diagnostics_of_a_request_have_no_place(rt: HostRuntime) -> Result<(), Fail> {
    let wanted = "request: error E201: no module q";
    expect_line(&rt, None, 201, &["q"], wanted)?;
    let wanted = "request: error E601: no entry point main in input";
    expect_line(&rt, None, 601, &["main", "input"], wanted)?;
    let wanted = "request: error E702: buffers are not those of the layout";
    expect_line(&rt, None, 702, &[], wanted)
}

/// Compares the line of a diagnostic, at a module's line and column or of the whole request.
fn expect_line(
    rt: &(impl Abort + AllocGlobal),
    place: Option<(&str, u32, u32)>,
    code: u16,
    args: &[&str],
    wanted: &str,
) -> Result<(), Fail>
    requires { IsTrue (takes code (length args.now)) }
{
    let site = match place {
        None => Site::Request,
        Some((module, line, column)) => Site::Source {
            module: Name::new(rt.alloc(), module.as_bytes())?,
            place: Place { line, column },
        },
    };
    let args = list_of(rt.alloc(), args)?;
    let line = Diag { site, code, args }.text(rt.alloc())?;
    assert_eq!(rt; line.as_slice(), wanted.as_bytes(), "{wanted}");
    Ok(())
}

fn list_of(alloc: Global, texts: &[&str]) -> Result<List<Bytes>, NoMemory>
    ensures { IfOk result (λ list. length list ≡ length texts.now) }
{
    let mut list = List::new(alloc);
    for text in texts {
        list.push(Bytes::from_slice(alloc, text.as_bytes())?)?;
    }
    Ok(list)
}
