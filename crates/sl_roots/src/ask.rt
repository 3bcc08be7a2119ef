//! Asking roots for one name.

ghost use Rattle.std.specs.Prelude.{map};
ghost use Rattle.sl_roots.specs.State.{root_state, Ask, Fetch};

use sl_base::Name;
use sl_io::{Fetched, SourceRoot};
use std::alloc::Global;

/// The greatest number of bytes of a module.
const MOST_BYTES: usize = 262_144;

/// What roots answered for a name.
#[derive(Debug, Drop)]
pub struct Answer {
    /// How many roots were asked. The last of them gave the answer.
    pub asked: usize,
    pub fetched: Fetched,
}

/// Asks the roots for a name, in order, until one of them has an answer other than `Absent`.
pub fn ask<R: SourceRoot>(alloc: Global, roots: &mut Vec<R>, name: &Name) -> Answer
    ensures { Ask name.now result.asked result.fetched
        (map (λ r. root_state (R.files r) (R.steady r) (R.faults r)) roots.old.items)
        (map (λ r. root_state (R.files r) (R.steady r) (R.faults r)) roots.new.items) }
{
    for at in 0..roots.len() {
        match fetch_from(alloc, &mut roots[at], name) {
            Fetched::Absent => {}
            fetched => {
                return Answer {
                    asked: at + 1,
                    fetched,
                };
            }
        }
    }
    Answer {
        asked: roots.len(),
        fetched: Fetched::Absent,
    }
}

/// Asks one root.
fn fetch_from<R: SourceRoot>(alloc: Global, root: &mut R, name: &Name) -> Fetched
    ensures { Fetch name.now result
        (root_state (R.files root.old) (R.steady root.old) (R.faults root.old))
        (root_state (R.files root.new) (R.steady root.new) (R.faults root.new)) }
{
    root.fetch(alloc, name, MOST_BYTES)
}
