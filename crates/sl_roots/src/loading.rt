//! Loading of sources from roots.

ghost use Rattle.std.specs.Prelude.{◌≡◌, ◌≤◌, List, ℕ, IfErr, IfOk, OnOk, MatchResult, length, map};
ghost use Rattle.def_sources.specs.Limits.{most_modules};
ghost use Rattle.def_sources.specs.Loaded.{Loaded, WellFormed};
ghost use Rattle.sl_roots.specs.Load.{counted, sources_of, Loads, Refuses, RefusesTold, ShowsFault};
ghost use Rattle.sl_roots.specs.State.{root_state, Keep, Tell};
ghost use Rattle.sl_roots.specs.Take.{Gains, Fails};

use crate::ask::ask;
use crate::refusal::LoadRefusal;
use crate::source_set::SourceSet;
use sl_base::{List, Name};
use sl_io::{Fetched, SourceRoot};
use std::alloc::Global;

/// The greatest number of modules.
const MOST_MODULES: usize = 256;

/// Loads the modules of these names from the roots.
///
/// Each name is taken once, in the order of first mention. The roots are asked for it in order, each
/// at most once, and the first one that does not answer `Absent` decides. The first refusal ends the
/// loading; the roots are then as their fetches left them.
pub fn load<R: SourceRoot>(
    alloc: Global,
    roots: &mut Vec<R>,
    names: &List<Name>,
) -> Result<SourceSet, LoadRefusal>
    ensures fetches { MatchResult result
        (λ set. Loads names.now (sources_of set)
        (map (λ r. root_state (R.files r) (R.steady r) (R.faults r)) roots.old.items)
        (map (λ r. root_state (R.files r) (R.steady r) (R.faults r)) roots.new.items))
        (λ refusal. Refuses refusal names.now
        (map (λ r. root_state (R.files r) (R.steady r) (R.faults r)) roots.old.items)
        (map (λ r. root_state (R.files r) (R.steady r) (R.faults r)) roots.new.items)) }
    ensures well_formed { IfOk result (λ set. WellFormed names.now (sources_of set)) }
    ensures fault { IfErr result (λ refusal. ShowsFault refusal
        (map (λ r. root_state (R.files r) (R.steady r) (R.faults r)) roots.old.items)
        (map (λ r. root_state (R.files r) (R.steady r) (R.faults r)) roots.new.items)) }
    ensures keeps { Keep
        (map (λ r. root_state (R.files r) (R.steady r) (R.faults r)) roots.old.items)
        (map (λ r. root_state (R.files r) (R.steady r) (R.faults r)) roots.new.items) }

    // Where the roots tell what they hold and are steady, the sources and the refusals are theirs.
    ensures told { (maps : List (List (List ℕ × List ℕ)))
        → Tell (map (λ r. root_state (R.files r) (R.steady r) (R.faults r)) roots.old.items) maps
        → MatchResult result
        (λ set. Loaded maps names.now (sources_of set))
        (λ refusal. RefusesTold refusal names.now maps) }
{
    gather(alloc, roots, names)
}

/// Takes the names that are not taken yet, one after another.
fn gather<R: SourceRoot>(
    alloc: Global,
    roots: &mut Vec<R>,
    names: &List<Name>,
) -> Result<SourceSet, LoadRefusal>
    ensures { MatchResult result
        (λ set. Loads names.now (sources_of set)
        (map (λ r. root_state (R.files r) (R.steady r) (R.faults r)) roots.old.items)
        (map (λ r. root_state (R.files r) (R.steady r) (R.faults r)) roots.new.items))
        (λ refusal. Refuses refusal names.now
        (map (λ r. root_state (R.files r) (R.steady r) (R.faults r)) roots.old.items)
        (map (λ r. root_state (R.files r) (R.steady r) (R.faults r)) roots.new.items)) }
{
    let mut set = SourceSet::new(alloc);
    for name in names.as_slice() {
        if !set.has(name) {
            take(alloc, roots, name, &mut set)?;
        }
    }
    Ok(set)
}

/// Asks the roots for a name, and adds it to the set with the module that was found, or as absent.
fn take<R: SourceRoot>(
    alloc: Global,
    roots: &mut Vec<R>,
    name: &Name,
    set: &mut SourceSet,
) -> Result<(), LoadRefusal>
    requires { length set.old.modules ≤ most_modules }
    ensures ok { OnOk result (Gains name.now (sources_of set.old) (sources_of set.new)
        (map (λ r. root_state (R.files r) (R.steady r) (R.faults r)) roots.old.items)
        (map (λ r. root_state (R.files r) (R.steady r) (R.faults r)) roots.new.items)) }
    ensures few { OnOk result (length set.new.modules ≤ most_modules) }
    ensures err { IfErr result (λ refusal. Fails refusal name.now (sources_of set.old)
        (map (λ r. root_state (R.files r) (R.steady r) (R.faults r)) roots.old.items)
        (map (λ r. root_state (R.files r) (R.steady r) (R.faults r)) roots.new.items)) }
{
    let answer = ask(alloc, roots, name);
    let name = name.copy(alloc)?;
    match answer.fetched {
        Fetched::Found(bytes) => {
            if set.modules.len() == MOST_MODULES {
                return Err(LoadRefusal::TooManyModules);
            }
            set.modules.push((name, bytes))?;
        }
        Fetched::Absent => set.absent.push(name)?,
        Fetched::TooLarge => return Err(LoadRefusal::ModuleTooLarge { name }),
        Fetched::Failed => {
            let root = counted(answer.asked);
            return Err(LoadRefusal::Fault { root, name });
        }
        Fetched::NoMemory => return Err(LoadRefusal::NoMemory),
    }
    Ok(())
}

/// The number that a refusal gives a root.
fn counted(number: usize) -> u32
    ensures { result ≡ counted number }
{
    u32::try_from(number).unwrap_or(u32::MAX)
}
