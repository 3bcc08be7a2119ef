//! The program: it makes the real objects and hands them to the top call.
#![tactic(auto)]

ghost use Rattle.std.specs.Prelude.{◌≡◌, ◌<◌};

use qe_rules::Steps;
use sl_io::{Sink, Source, StdSink, StdSource};
use sl_roots::DirRoot;
use sl_run::{Status, report, run_alone};
use std::marker::Brand;
use std::process::ExitCode;
use std::rt::{Env, Files};
use std::sync::ledger::{Blank, Ledger};
use std::{env, io};

/// The folders that modules come from, of which the first one that has a module decides.
const FOLDERS: [&str; 2] = [".", "lib"];

/// The words of the command line after the program's name.
fn words<H: Env + AllocGlobal>(rt: &H) -> io::Result<Vec<String>> {
    let mut words = Vec::new(rt.alloc());
    for word in env::args(rt)?.skip(1) {
        words.push(word)?;
    }
    Ok(words)
}

/// The status where the words cannot be had: one that is not UTF-8 is no word of a command, and nothing
/// else can fail but memory.
fn refusal(error: &io::Error) -> Status {
    match error.kind() {
        io::ErrorKind::InvalidData => Status::Usage,
        _ => Status::NoMemory,
    }
}

/// The roots over the folders.
fn roots<H: Files + Clone + Drop + AllocGlobal>(rt: &H) -> io::Result<Vec<DirRoot<H>>> {
    let mut roots = Vec::new(rt.alloc());
    for folder in FOLDERS {
        let folder = String::from_str(rt.alloc(), folder)?;
        roots.push(DirRoot::new(rt.clone()?, folder))?;
    }
    Ok(roots)
}

/// Runs the command with the objects of the process. No step is counted for anybody else.
fn run<L: Ledger, H: Env + Files + Clone + Drop + AllocGlobal, I: Source, O: Sink, E: Sink>(
    rt: &H,
    input: &mut I,
    out: &mut O,
    err: &mut E,
    blank: Blank,
) -> Status
    requires name { blank.name ≡ L.name }
    requires parts { blank.parts ≡ L.parts }
    requires some { 0 < L.parts }
{
    let mut steps: Steps<L> = Steps::new(blank);
    let words = match words(rt) {
        Ok(words) => words,
        Err(error) => return report(refusal(&error), err),
    };
    match roots(rt) {
        Ok(mut roots) => run_alone(rt.alloc(), &words, &mut roots, input, out, err, &mut steps),
        // They are made in memory, and nothing else of them can fail.
        Err(_) => report(Status::NoMemory, err),
    }
}

fn main(rt: HostRuntime) -> ExitCode {
    let status = run::<Brand, _, _, _, _>(
        &rt,
        &mut StdSource::new(rt.stdin()),
        &mut StdSink::new(rt.stdout()),
        &mut StdSink::new(rt.stderr()),
        Blank::new(1),
    );
    ExitCode::from(status.number())
}
