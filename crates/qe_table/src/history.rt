//! A history that takes no memory.

ghost use Rattle.std.specs.Prelude.{◌≡◌, ◌++◌, ◌∷◌, []};

use std::marker::Model;
use std::snapshot::Snapshot;

// What has happened: nothing, or one entry more than before.
#[derive(Drop)]
#[cycle(history)]
enum Past<E> {
    Start,
    Then(Snapshot<History<E>>, Snapshot<E>),
}

/// A list of entries that contracts alone see. It has one byte, however many entries there are.
#[derive(Drop)]
#[cycle(history)]
pub struct History<E> {
    past: Past<E>,
}

impl<E> Model for History<E> {
    ghost use Rattle.std.specs.Prelude.{List, length};

    ghost Value = { List E };

    ghost use Rattle.qe_table.specs.History.{entries};

    ghost view = { λ h. entries h.past };

    ghost size = { length };

    ghost use Rattle.std.proofs.Common.{arith, length-append};

    ghost size_decreases = { λ a h. Prim.grind (arith, length-append) };
}

impl<E> History<E> {
    /// No entries.
    pub fn new() -> History<E>
        ensures { result ≡ [] }
    {
        History { past: Past::Start }
    }

    /// One entry more, at the end.
    pub fn push(&mut self, entry: Snapshot<E>)
        ensures { self.new ≡ self.old ++ entry.value ∷ [] }
    {
        let before = Snapshot::of(self);
        *self = History {
            past: Past::Then(before, entry),
        };
    }
}
