//! The top call on one thread.

ghost use Rattle.std.specs.Prelude.{◌≡◌, ◌≤◌, None, true, false, map};
ghost use Rattle.std.specs.String.{string_bytes};
ghost use Rattle.sl_roots.specs.State.{root_state, Keep};
ghost use Rattle.sl_run.specs.Command.{command_of};
ghost use Rattle.sl_run.specs.RunAlone.{Ends, asks_roots, leaves_err, leaves_out, reads_input, tells_in_out};
ghost use Rattle.sl_run.specs.Seen.{counted, seen, seen_roots};

use crate::check::check;
use crate::command::{Command, command_of};
use crate::one::one;
use crate::status::{Status, report};
use qe_rules::Steps;
use sl_base::NoMemory;
use sl_io::{Sink, Source, SourceRoot};
use std::alloc::Global;
use std::sync::ledger::Ledger;

/// Runs a command on one thread: `words` are the words of the command line after the program's
/// name.
///
/// `one ENTRY` reads one module from `input` and writes the bytes of its words to `out`, or its
/// diagnostics to `err`, one a line. `check MODULE` loads the module from `roots` and writes to `out`
/// the text of a script with this one request. At every other status than `Done` and `Diagnosed` one
/// line on `err` tells the status. `steps` counts one step for each query that is worked out. The order
/// is that of the work: words, input, sources, replies, writing.
pub fn run_alone<R: SourceRoot, I: Source, O: Sink, E: Sink, L: Ledger>(
    alloc: Global,
    words: &[String],
    roots: &mut Vec<R>,
    input: &mut I,
    out: &mut O,
    err: &mut E,
    steps: &mut Steps<L>,
) -> Status
    ensures ends { Ends result (command_of (map string_bytes words.now))
        (seen_roots
        (map (λ r. root_state (R.files r) (R.steady r) (R.faults r)) roots.old.items)
        (map (λ r. root_state (R.files r) (R.steady r) (R.faults r)) roots.new.items))
        (counted steps.old steps.new)
        (seen (I.left input.old) (I.left input.new) (I.faults input.old) (I.faults input.new))
        (seen (O.written out.old) (O.written out.new) (O.faults out.old) (O.faults out.new))
        (seen (E.written err.old) (E.written err.new) (E.faults err.old) (E.faults err.new)) }

    // What a command and a status leave as it was.
    ensures input { reads_input (command_of (map string_bytes words.now)) ≡ false
        → input.new ≡ input.old }
    ensures roots { asks_roots (command_of (map string_bytes words.now)) ≡ false
        → roots.new ≡ roots.old }
    ensures steps { asks_roots (command_of (map string_bytes words.now)) ≡ false
        → steps.new ≡ steps.old }
    ensures out { leaves_out (tells_in_out (command_of (map string_bytes words.now))) result ≡ true
        → out.new ≡ out.old }
    ensures err { leaves_err (tells_in_out (command_of (map string_bytes words.now))) result ≡ true
        → err.new ≡ err.old }

    ensures roots_keep { Keep
        (map (λ r. root_state (R.files r) (R.steady r) (R.faults r)) roots.old.items)
        (map (λ r. root_state (R.files r) (R.steady r) (R.faults r)) roots.new.items) }
    ensures input_never_falls { I.faults input.old ≤ I.faults input.new }
    ensures out_never_falls { O.faults out.old ≤ O.faults out.new }
    ensures err_never_falls { E.faults err.old ≤ E.faults err.new }
{
    match command_of(alloc, words) {
        Ok(Some(Command::One(entry))) => one(alloc, entry, input, out, err),
        Ok(Some(Command::Check(name))) => check(alloc, name, roots, out, err, steps),
        Ok(None) => report(Status::Usage, err),
        Err(NoMemory) => report(Status::NoMemory, err),
    }
}
