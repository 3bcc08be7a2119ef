//! What is told of texts, and what comes first. What trees they are is proved.

use crate::syntax;
use sl_base::Refusal;
use std::process::Abort;
use std::test::Fail;

// What is told of a text as `line:column: E` and the code, with the arguments behind it, or how many declarations it has.
fn told(rt: &(impl Abort + AllocGlobal), text: &str) -> Result<String, Fail> {
    assert!(rt; text.len() < 1000000);
    match syntax(rt.alloc(), text.as_bytes()) {
        Ok(tree) => Ok(format!(in rt.alloc(); "{}", tree.decls.len())?),
        Err(Refusal::Diag { at, code, args }) => {
            let mut told = format!(in rt.alloc(); "{}:{}: E{code}", at.line, at.column)?;
            for arg in args.as_slice() {
                told.push_str(" ")?;
                told.push_str(str::from_utf8(arg.as_slice()).unwrap_or("?"))?;
            }
            Ok(told)
        }
        Err(Refusal::NoMemory) => panic!(rt; "memory ran out"),
    }
}

// Each text is told so.
fn expect(rt: &(impl Abort + AllocGlobal), table: &[(&str, &str)]) -> Result<(), Fail> {
    for (text, wanted) in table {
        let told = told(rt, text)?;
        assert_eq!(rt; told.as_str(), *wanted, "{text}");
    }
    Ok(())
}

#[test]
fn nothing_is_told_of_modules(rt: HostRuntime) -> Result<(), Fail> {
    expect(
        &rt,
        &[
            ("", "0"),
            ("module m;\n", "0"),
            (
                "typealias N = uint64_t;\nstatic const N A = (B * 2ull) - 1; // of B\nimport a;",
                "3",
            ),
            (
                "interface I { associatedtype A; int f(); [mutating] int g(A a) { return 1ll; } }",
                "1",
            ),
            (
                "struct S<T : I> { int64_t a; void m() { if (a < b) return; else { f<int>(a); } } }",
                "1",
            ),
            ("[[vk::binding(1, 2)]] RWStructuredBuffer<int> a;", "1"),
            (
                "[shader(\"compute\")] [numthreads(1, 1, 1)] void f() {}",
                "1",
            ),
        ],
    )
}

#[test]
fn what_each_stage_tells_comes_before_what_the_next_tells(rt: HostRuntime) -> Result<(), Fail> {
    expect(
        &rt,
        &[
            ("typealias A = int;\ntypealias A = int;", "2:11: E120 A"),
            (
                "typealias A = int;\ntypealias A = int; typealias = 1;",
                "2:30: E110 =",
            ),
            (
                "typealias A = int;\ntypealias A = int; typealias = 1; $",
                "2:35: E101 24",
            ),
        ],
    )
}

#[test]
fn the_first_token_that_no_module_continues_is_told(rt: HostRuntime) -> Result<(), Fail> {
    expect(
        &rt,
        &[
            ("/* open", "1:1: E102"),
            ("struct S {", "1:11: E110 end of file"),
            ("module m; module n;", "1:11: E110 module"),
            ("struct S<T : I : J> {}", "1:16: E110 :"),
            ("int f() { a b; c }", "1:18: E110 }"),
            ("interface I { int f() }", "1:23: E110 }"),
            (
                "[[vk::binding(1ll)]] StructuredBuffer<int> a;",
                "1:15: E110 1ll",
            ),
        ],
    )
}

#[test]
fn the_first_limit_is_told(rt: HostRuntime) -> Result<(), Fail> {
    for (front, piece, many, wanted) in [
        ("static const int K = ", "(", 70, "1:86: E111"),
        ("static const int K = ", "- ", 70, "1:150: E111"),
        ("static const int K = ", "a.", 600, "1:1046: E112"),
        ("static const int K = ", "a<", 600, "1:1046: E111"),
        ("typealias A = ", "a<", 70, "1:143: E111"),
        ("void f() ", "{", 70, "1:74: E111"),
        ("void f() { ", "if(a)", 70, "1:337: E111"),
        (
            "typealias A = ; static const int K = ",
            "(",
            65,
            "1:15: E110 ;",
        ),
    ] {
        let mut text = format!(in rt.alloc(); "{front}")?;
        for _ in 0..many {
            text.push_str(piece)?;
        }
        expect(&rt, &[(text.as_str(), wanted)])?;
    }
    Ok(())
}
