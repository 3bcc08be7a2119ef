//! The text that tells replies.

ghost use Rattle.std.specs.Prelude.{◌≡◌, ◌++◌, IfOk, OnOk, length, map, codes};
ghost use Rattle.std.specs.Fmt.{decimal};
ghost use Rattle.std.specs.List.{All, flat_map};
ghost use Rattle.def_reply.specs.Text.{caller_text, diagnostic_line, line, out_text, reply_text};
ghost use Rattle.rl_all.specs.Telling.{CanBeTold, HasText};
ghost use Rattle.sl_run.specs.Views.{answered_in, callers_in};

use sl_base::{Bytes, Diag, List, NoMemory};
use sl_key::{Reply, Request, Term};
use std::alloc::Global;

/// A request with its reply.
#[derive(Debug, Drop)]
pub struct Answered {
    pub request: Request,
    pub reply: Reply,
}

/// The text of all replies: for each caller its requests with their replies, in order, and last how
/// many queries were worked out. The only error is that memory ran out.
pub fn out_text(alloc: Global, callers: &[List<Answered>], worked: u64) -> Result<Bytes, NoMemory>
    requires { All (All (λ answered. CanBeTold answered.reply)) callers.now }
    ensures { IfOk result (λ text. text ≡ out_text (callers_in callers.now) worked) }
{
    let mut text = Bytes::new(alloc);
    for (at, requests) in callers.iter().enumerate() {
        push_caller(alloc, &mut text, at + 1, requests.as_slice())?;
    }
    let last = format!(in alloc; "worked {worked}\n")?;
    text.extend_from_slice(last.as_bytes())?;
    Ok(text)
}

/// Puts the lines of a caller's replies at the end.
fn push_caller(
    alloc: Global,
    text: &mut Bytes,
    caller: usize,
    requests: &[Answered],
) -> Result<(), NoMemory>
    requires { All (λ answered. CanBeTold answered.reply) requests.now }
    ensures { OnOk result
        (text.new ≡ text.old ++ caller_text caller (map answered_in requests.now)) }
{
    for (at, answered) in requests.iter().enumerate() {
        push_reply(alloc, text, caller, at + 1, answered)?;
    }
    Ok(())
}

/// Puts the lines of a reply at the end.
fn push_reply(
    alloc: Global,
    text: &mut Bytes,
    caller: usize,
    number: usize,
    answered: &Answered,
) -> Result<(), NoMemory>
    requires { CanBeTold answered.now.reply }
    ensures { OnOk result
        (text.new ≡ text.old ++ reply_text caller number (answered_in answered.now)) }
{
    let Request::Make(Term::Load(_)) = &answered.request;
    let head = format!(in alloc; "{caller}:{number} load ")?;
    text.extend_from_slice(head.as_bytes())?;
    match &answered.reply {
        Reply::Made => text.extend_from_slice(b"ok\n"),
        Reply::Failed(diagnostics) => push_failed(alloc, text, diagnostics.as_slice()),
    }
}

/// Puts the end of a failed reply's first line at the end, and its diagnostics, one a line.
fn push_failed(alloc: Global, text: &mut Bytes, diagnostics: &[Diag]) -> Result<(), NoMemory>
    requires { All HasText diagnostics.now }
    ensures { OnOk result (text.new ≡ text.old
        ++ (line (codes "failed " ++ decimal (length diagnostics.now))
        ++ flat_map diagnostic_line diagnostics.now)) }
{
    let end = format!(in alloc; "failed {}\n", diagnostics.len())?;
    text.extend_from_slice(end.as_bytes())?;
    push_diagnostics(alloc, text, diagnostics)
}

/// Puts diagnostics at the end, one a line.
fn push_diagnostics(alloc: Global, text: &mut Bytes, diagnostics: &[Diag]) -> Result<(), NoMemory>
    requires { All HasText diagnostics.now }
    ensures { OnOk result
        (text.new ≡ text.old ++ flat_map diagnostic_line diagnostics.now) }
{
    for diagnostic in diagnostics {
        text.extend_from_slice(diagnostic_line(alloc, diagnostic)?.as_slice())?;
    }
    Ok(())
}

/// A diagnostic as a line. The only error is that memory ran out.
pub fn diagnostic_line(alloc: Global, diagnostic: &Diag) -> Result<Bytes, NoMemory>
    requires { HasText diagnostic.now }
    ensures { IfOk result (λ line. line ≡ diagnostic_line diagnostic.now) }
{
    let mut line = diagnostic.text(alloc)?;
    line.push(b'\n')?;
    Ok(line)
}
