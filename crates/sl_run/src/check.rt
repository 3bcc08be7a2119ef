//! The command `check MODULE`.

ghost use Rattle.std.specs.Prelude.{◌≡◌, ◌≢◌, ◌≤◌, true, [], ◌∷◌, IfOk, IfErr, length, map};
ghost use Rattle.std.specs.List.{All};
ghost use Rattle.def_sources.specs.Limits.{most_bytes};
ghost use Rattle.sl_roots.specs.Load.{sources_of};
ghost use Rattle.sl_roots.specs.State.{root_state, Keep};
ghost use Rattle.sl_run.specs.Check.{EndsCheck, IsLoaded, IsRefused};
ghost use Rattle.sl_run.specs.Ending.{EndsText, IsCheckedTo, Tells, status_of_load};
ghost use Rattle.sl_run.specs.RunAlone.{leaves_err, leaves_out};
ghost use Rattle.sl_run.specs.Seen.{counted, seen, seen_roots};

use crate::reply_text::{Answered, out_text};
use crate::status::{Status, report};
use qe_rules::Steps;
use rl_all::{SlangRules, reply_alone};
use sl_base::{Bytes, List, Name, NoMemory};
use sl_io::{Sink, SourceRoot, write_all_of};
use sl_key::{Reply, Request, Term};
use sl_roots::{LoadRefusal, SourceSet, load};
use std::alloc::Global;
use std::sync::ledger::Ledger;

/// The text that tells a reply, and whether the reply is without diagnostics.
#[derive(Drop)]
struct Checked {
    made: bool,
    text: Bytes,
}

/// Runs `check MODULE`: loads the module from the roots and writes to `out` the text of a script with
/// this one request.
pub fn check<R: SourceRoot, O: Sink, E: Sink, L: Ledger>(
    alloc: Global,
    name: Name,
    roots: &mut Vec<R>,
    out: &mut O,
    err: &mut E,
    steps: &mut Steps<L>,
) -> Status
    ensures ends { EndsCheck result name
        (seen_roots
        (map (λ r. root_state (R.files r) (R.steady r) (R.faults r)) roots.old.items)
        (map (λ r. root_state (R.files r) (R.steady r) (R.faults r)) roots.new.items))
        (counted steps.old steps.new)
        (seen (O.written out.old) (O.written out.new) (O.faults out.old) (O.faults out.new))
        (seen (E.written err.old) (E.written err.new) (E.faults err.old) (E.faults err.new)) }
    ensures out { leaves_out true result ≡ true → out.new ≡ out.old }
    ensures err { leaves_err true result ≡ true → err.new ≡ err.old }
    ensures roots_keep { Keep
        (map (λ r. root_state (R.files r) (R.steady r) (R.faults r)) roots.old.items)
        (map (λ r. root_state (R.files r) (R.steady r) (R.faults r)) roots.new.items) }
    ensures out_never_falls { O.faults out.old ≤ O.faults out.new }
    ensures err_never_falls { E.faults err.old ≤ E.faults err.new }
{
    match check_module(alloc, name, roots, steps) {
        Ok(checked) => write_text(&checked, out, err),
        Err(refusal) => report(status_of(refusal), err),
    }
}

/// Loads the module, and tells the reply to the request for it.
fn check_module<R: SourceRoot, L: Ledger>(
    alloc: Global,
    name: Name,
    roots: &mut Vec<R>,
    steps: &mut Steps<L>,
) -> Result<Checked, LoadRefusal>
    ensures ok { IfOk result (λ checked. IsCheckedTo checked.made name
        (seen_roots
        (map (λ r. root_state (R.files r) (R.steady r) (R.faults r)) roots.old.items)
        (map (λ r. root_state (R.files r) (R.steady r) (R.faults r)) roots.new.items))
        (counted steps.old steps.new) checked.text) }
    ensures idle { IfErr result (λ refusal. refusal ≢ LoadRefusal.NoMemory → steps.new ≡ steps.old) }
    ensures err { IfErr result (λ refusal. refusal ≢ LoadRefusal.NoMemory
        → IsRefused (name ∷ []) refusal
        (seen_roots
        (map (λ r. root_state (R.files r) (R.steady r) (R.faults r)) roots.old.items)
        (map (λ r. root_state (R.files r) (R.steady r) (R.faults r)) roots.new.items))) }
    ensures keeps { Keep
        (map (λ r. root_state (R.files r) (R.steady r) (R.faults r)) roots.old.items)
        (map (λ r. root_state (R.files r) (R.steady r) (R.faults r)) roots.new.items) }
{
    let sources = load_one(alloc, roots, &name)?;
    Ok(tell(alloc, sources, name, steps)?)
}

/// Loads the module of this name, and what it needs.
fn load_one<R: SourceRoot>(
    alloc: Global,
    roots: &mut Vec<R>,
    name: &Name,
) -> Result<SourceSet, LoadRefusal>
    ensures ok { IfOk result (λ sources. IsLoaded (name.now ∷ []) (sources_of sources)
        (seen_roots
        (map (λ r. root_state (R.files r) (R.steady r) (R.faults r)) roots.old.items)
        (map (λ r. root_state (R.files r) (R.steady r) (R.faults r)) roots.new.items))) }
    ensures err { IfErr result (λ refusal. refusal ≢ LoadRefusal.NoMemory
        → IsRefused (name.now ∷ []) refusal
        (seen_roots
        (map (λ r. root_state (R.files r) (R.steady r) (R.faults r)) roots.old.items)
        (map (λ r. root_state (R.files r) (R.steady r) (R.faults r)) roots.new.items))) }
    ensures keeps { Keep
        (map (λ r. root_state (R.files r) (R.steady r) (R.faults r)) roots.old.items)
        (map (λ r. root_state (R.files r) (R.steady r) (R.faults r)) roots.new.items) }
{
    let names = names_of(alloc, name)?;
    load(alloc, roots, &names)
}

/// The list of one name.
fn names_of(alloc: Global, name: &Name) -> Result<List<Name>, NoMemory>
    ensures { IfOk result (λ names. names ≡ name.now ∷ []) }
{
    let mut names = List::new(alloc);
    names.push(name.copy(alloc)?)?;
    Ok(names)
}

/// What the request for a module replies to sources, and the text that tells it.
fn tell<L: Ledger>(
    alloc: Global,
    sources: SourceSet,
    name: Name,
    steps: &mut Steps<L>,
) -> Result<Checked, NoMemory>
    requires { All (λ file. length file.1 ≤ most_bytes) sources.modules }
    ensures { IfOk result (λ checked. Tells checked.made (sources_of sources) name checked.text
        (counted steps.old steps.new)) }
{
    let rules = SlangRules::new(sources);
    let request = Request::Make(Term::Load(name));
    let worked = reply_alone(alloc, &rules, &request, steps)?;
    let made = matches!(worked.reply, Reply::Made);
    let mut requests = List::new(alloc);
    requests.push(Answered {
        request,
        reply: worked.reply,
    })?;
    let text = out_text(alloc, &[requests], worked.queries)?;
    Ok(Checked { made, text })
}

/// Writes the text that tells the reply.
fn write_text<O: Sink, E: Sink>(checked: &Checked, out: &mut O, err: &mut E) -> Status
    ensures ends { EndsText result checked.now.made
        (seen (O.written out.old) (O.written out.new) (O.faults out.old) (O.faults out.new))
        (seen (E.written err.old) (E.written err.new) (E.faults err.old) (E.faults err.new))
        checked.now.text }
    ensures err { leaves_err true result ≡ true → err.new ≡ err.old }
    ensures out_never_falls { O.faults out.old ≤ O.faults out.new }
    ensures err_never_falls { E.faults err.old ≤ E.faults err.new }
{
    match write_all_of(out, checked.text.as_slice()) {
        Ok(()) if checked.made => Status::Done,
        Ok(()) => Status::Diagnosed,
        Err(refusal) => report(
            Status::WriteFault {
                written: refusal.written,
            },
            err,
        ),
    }
}

fn status_of(refusal: LoadRefusal) -> Status
    ensures { result ≡ status_of_load refusal }
{
    match refusal {
        LoadRefusal::Fault { root, name } => Status::SourceFault { root, name },
        LoadRefusal::ModuleTooLarge { name } => Status::ModuleTooLarge { name },
        LoadRefusal::TooManyModules => Status::TooManyModules,
        LoadRefusal::NoMemory => Status::NoMemory,
    }
}
