//! What requests are replied over one module.

ghost use Rattle.std.specs.Prelude.{◌≡◌, IfOk};
ghost use Rattle.rl_all.specs.Telling.{CanBeTold};

use crate::{SlangRules, Worked, reply_alone};
use qe_rules::Steps;
use sl_base::{Bytes, List, Name};
use sl_key::{Reply, Request, Term};
use sl_roots::SourceSet;
use std::alloc::Global;
use std::marker::Brand;
use std::process::Abort;
use std::sync::ledger::{Blank, Ledger};
use std::test::Fail;

/// The rules over the one module `m`, which has this text.
fn rules_of(alloc: Global, text: &str) -> Result<SlangRules, Fail> {
    if text.len() > 262_144 {
        return Err(Fail::new("more than a module may have"));
    }
    let name = Name::new(alloc, b"m")?;
    let mut modules = List::new(alloc);
    modules.push((name, Bytes::from_slice(alloc, text.as_bytes())?))?;
    let absent = List::new(alloc);
    Ok(SlangRules::new(SourceSet { modules, absent }))
}

/// The lines of a reply's diagnostics, each with a line end.
fn lines_of(alloc: Global, reply: &Reply) -> Result<Bytes, Fail>
    requires { CanBeTold reply.now }
{
    let mut lines = Bytes::new(alloc);
    if let Reply::Failed(told) = reply {
        for diag in told.as_slice() {
            lines.extend_from_slice(diag.text(alloc)?.as_slice())?;
            lines.push(b'\n')?;
        }
    }
    Ok(lines)
}

/// The reply to a request of a fresh asker, which counts on a ledger of its own.
fn load<L: Ledger>(
    alloc: Global,
    blank: Blank,
    rules: &SlangRules,
    request: &Request,
) -> Result<Worked, Fail>
    requires name { blank.name ≡ L.name }
    requires parts { blank.parts ≡ L.parts }
    requires one { blank.parts ≡ 1 }
    ensures { IfOk result (λ worked. CanBeTold worked.reply) }
{
    Ok(reply_alone(alloc, rules, request, &mut Steps::<L>::new(blank))?)
}

/// What `load NAME` is replied over the module `m` of this text: these lines, after so many queries.
fn expect_of(
    rt: &(impl Abort + AllocGlobal),
    text: &str,
    name: &str,
    lines: &str,
    queries: u64,
) -> Result<(), Fail> {
    let alloc = rt.alloc();
    let rules = rules_of(alloc, text)?;
    let request = Request::Make(Term::Load(Name::new(alloc, name.as_bytes())?));
    let worked = load::<Brand>(alloc, Blank::new(1), &rules, &request)?;
    assert_eq!(rt;
        lines_of(alloc, &worked.reply)?.as_slice(),
        lines.as_bytes()
    );
    assert_eq!(rt; matches!(worked.reply, Reply::Made), lines.is_empty());
    assert_eq!(rt; worked.queries, queries);
    Ok(())
}

/// What `load m` is replied over the module `m` of this text.
fn expect(
    rt: &(impl Abort + AllocGlobal),
    text: &str,
    lines: &str,
    queries: u64,
) -> Result<(), Fail> {
    expect_of(rt, text, "m", lines, queries)
}

#[test]
fn modules_without_faults_are_made(rt: HostRuntime) -> Result<(), Fail> {
    expect(&rt, "", "", 2)?;
    expect(&rt, "// nothing\n", "", 2)?;
    expect(
        &rt,
        "typealias N = uint;\nstatic const N A = B * 2;\nstatic const int B = 3;\n",
        "",
        5,
    )
}

#[test]
fn an_absent_module_is_told_at_the_request(rt: HostRuntime) -> Result<(), Fail> {
    let told = "request: error E201: no module q\n";
    expect_of(&rt, "", "q", told, 0)
}

#[test]
fn a_cycle_is_told_once_at_its_least_key(rt: HostRuntime) -> Result<(), Fail> {
    expect(
        &rt,
        "static const int A = B + 1;\nstatic const int B = A;",
        "m:1:18: error E901: circular: m.A -> m.B -> m.A\n",
        4,
    )?;
    expect(
        &rt,
        "static const int B = A + 1;\nstatic const int A = B;",
        "m:2:18: error E901: circular: m.A -> m.B -> m.A\n",
        4,
    )?;
    expect(
        &rt,
        "typealias A = B;\ntypealias B = A;\ntypealias C = A;",
        "m:1:11: error E901: circular: m.A -> m.B -> m.A\n",
        5,
    )
}
