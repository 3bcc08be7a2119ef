//! What a caller of a lock holds.

ghost use Rattle.std.specs.Prelude.{◌≡◌};

use crate::law::Place;
use crate::stands_for::StandsFor;
use std::marker::Model;
use std::snapshot::Snapshot;

/// What a caller of a lock knows. It belongs to one lock, and contracts see it as its number, what it
/// has seen of the history, its books, its turns and the next number that it may give out.
#[derive(Drop)]
pub struct Pass<T: StandsFor> {
    pub(crate) seat: Place<T>,
    pub(crate) origin: Snapshot<Snapshot<T>>,
    pub(crate) caller: u32,
}

impl<T: StandsFor> Model for Pass<T> {
    ghost use Rattle.std.specs.Prelude.{◌≡◌, Some};
    ghost use Rattle.def_turn.specs.Pass.{PassState};
    ghost use Rattle.sl_turn.specs.View.{pass_of, IsIdle};
    ghost use Rattle.sl_turn.specs.Plays.{IsSound};

    ghost Value = { PassState T.Subject T.Entry };

    ghost view = { λ p. pass_of (record { table = p.seat.table_id; subject = T.subject p.origin.value.value }) p.seat.me.0 };

    ghost invariant = { λ p. (p.caller ≡ p.seat.me.0.number)
        × (p.seat.me.0.subject ≡ Some (T.subject p.origin.value.value))
        × IsIdle p.seat.me
        × IsSound T.caller T.legal p.seat.me.0 };
}

impl<T: StandsFor> Pass<T> {
    /// The number under which its owner takes turns.
    pub fn caller(&self) -> u32
        ensures { result ≡ self.now.number }
    {
        self.caller
    }
}
