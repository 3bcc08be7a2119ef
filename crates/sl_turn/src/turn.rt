//! The ticket lock.

ghost use Rattle.std.specs.Prelude.{◌≡◌, ◌≢◌, ◌⊎◌, ℕ, ◌+◌, ◌<◌, ◌≤◌, List, ◌++◌, ◌∷◌, [], max, Some, None, IfOk};
ghost use mathlib.Core.List.{IsPrefix};
ghost use Rattle.def_turn.specs.Pass.{IsRight, Holds, HoldsAll, HasBook, AreNumbered, entries_of, first_pass, split_pass, longer};
ghost use Rattle.sl_turn.specs.Once.{MayTurn, HasTurned, history_after};
ghost use Rattle.sl_turn.specs.View.{IsIdle, pass_of};
ghost use Rattle.sl_turn.specs.Plays.{Carries, HasTaken, HasEnded, IsSound};

use crate::law::{Cut, Draw, Enter, Glue, Law, Look, Place, Raise};
use crate::pass::Pass;
use crate::stands_for::StandsFor;
use crate::view::View;
use crate::work::{Turned, Work};
use atomic_table::Table;
use sl_base::NoMemory;
use std::alloc::Global;
use std::marker::Model;
use std::snapshot::Snapshot;
use std::sync::{Condvar, Mutex, Wait};

/// A ticket lock over a value that stands for a history. Contracts see it as the table that it is made
/// of and the subject of its value.
#[derive(Drop)]
pub struct Turn<T: StandsFor> {
    table: Table<Option<T>, View<T::Subject, T::Entry>, Snapshot<T>, Law<T>, Global>,
    origin: Snapshot<T>,
    gate: Mutex<()>,
    served: Condvar,
}

impl<T: StandsFor> Model for Turn<T> {
    ghost use Rattle.std.specs.Prelude.{◌≡◌};
    ghost use Rattle.def_turn.specs.Pass.{Lock};

    ghost Value = { Lock T.Subject };

    ghost view = { λ t. record {
      table = t.table.shared.table_id;
      subject = T.subject t.origin.value;
    } };

    ghost invariant = { λ t. (t.table.shared.table_id.words ≡ 2)
        × (t.table.shared.table_id.slots ≡ 1)
        × (t.table.shared.key ≡ t.origin) };
}

impl<T: StandsFor> Turn<T> {
    /// A lock over a value with an empty history, and the pass of caller 1, which gives out the next
    /// numbers. Without memory the value is dropped.
    pub fn new(alloc: Global, value: T) -> Result<(Turn<T>, Pass<T>), NoMemory>
        requires empty { T.history value ≡ [] }
        requires legal { T.legal (T.subject value) [] }
        ensures subject { IfOk result (λ r. r.0.subject ≡ T.subject value) }
        ensures pass { IfOk result (λ r. r.1 ≡ first_pass r.0) }
        ensures right { IfOk result (λ r. IsRight T.caller T.legal r.1) }
    {
        let origin = Snapshot::of(&value);
        let mut slots = Vec::with_capacity(alloc, 1)?;
        slots.push(Some(value))?;
        let Ok((table, seat)) = Table::new(alloc, &[0, 0], slots, &origin) else {
            return Err(NoMemory);
        };
        let pass = Pass {
            seat,
            origin: Snapshot::of(&origin),
            caller: 1,
        };
        let turn = Turn {
            table,
            origin,
            gate: Mutex::new(()),
            served: Condvar::new(),
        };
        Ok((turn, pass))
    }

    /// A pass of the next number, which has seen as much and has no entries of its own.
    pub fn split(&self, pass: &mut Pass<T>, caller: u32) -> Pass<T>
        requires lock { pass.old.lock ≡ self.now }
        requires gives { (pass.old.next ≢ 0) × (pass.old.next < 4294967295) }
        requires number { caller ≡ pass.old.next }
        ensures pass { pass.new ≡ record pass.old { next = pass.old.next + 1 } }
        ensures new { result ≡ split_pass pass.old }
        ensures right { IsRight T.caller T.legal pass.new × IsRight T.caller T.legal result }
    {
        let mut seat = self.table.shared.split_seat::<Cut>(&mut pass.seat);
        self.table.shared.load::<Look<T>>(&mut seat, 1);
        Pass {
            seat,
            origin: Snapshot::of(&self.origin),
            caller,
        }
    }

    /// Takes in another pass: the longer of what the two have seen, the books of both, and the greater
    /// next number.
    pub fn join(&self, pass: &mut Pass<T>, other: Pass<T>)
        requires lock { pass.old.lock ≡ self.now }
        requires other { other.lock ≡ self.now }
        ensures pass { pass.new ≡ record pass.old {
          seen = longer pass.old.seen other.seen;
          books = pass.old.books ++ other.books;
          next = max pass.old.next other.next;
        } }
        ensures begins { IsPrefix pass.old.seen pass.new.seen }
        ensures begins_other { IsPrefix other.seen pass.new.seen }
        ensures holds { (n : ℕ) → Holds pass.old.books n ⊎ Holds other.books n
            → Holds pass.new.books n }
        ensures right { IsRight T.caller T.legal pass.new }
    {
        let Pass { seat, .. } = other;
        self.table.shared.join_seat::<Glue>(&mut pass.seat, seat);
        self.table.shared.load::<Look<T>>(&mut pass.seat, 1);
    }

    /// Waits for a turn, does the work in it on the value, and says whether the work's entry was
    /// entered. It returns only where each turn before it ends.
    pub fn once<W: Work<T>>(
        &self,
        rt: &impl Wait,
        pass: &mut Pass<T>,
        work: &mut W,
    ) -> Turned<W::Out>
        requires lock { pass.old.lock ≡ self.now }
        requires entry { T.caller (W.entry work.old) ≡ pass.old.number }
        requires may { MayTurn T.caller T.legal pass.old (W.entry work.old)
            (W.fits work.old) (W.tells work.old) }
        ensures turned { HasTurned T.caller T.legal (W.entry work.old)
            (W.tells work.old) pass.old result pass.new }
        ensures begins { IsPrefix pass.old.seen pass.new.seen }
        ensures holds { (n : ℕ) → Holds pass.old.books n → Holds pass.new.books n }
        ensures right { IsRight T.caller T.legal pass.new }
    {
        self.serve(rt, &mut pass.seat, work)
    }

    // A whole turn of a seat.
    fn serve<W: Work<T>>(&self, rt: &impl Wait, seat: &mut Place<T>, work: &mut W) -> Turned<W::Out>
        requires lock { seat.old.table_id ≡ self.now.table }
        requires subject { seat.old.me.0.subject ≡ Some self.now.subject }
        requires idle { IsIdle seat.old.me }
        requires sound { IsSound T.caller T.legal seat.old.me.0 }
        requires entry { T.caller (W.entry work.old) ≡ seat.old.me.0.number }
        requires may { MayTurn T.caller T.legal (pass_of self.now seat.old.me.0)
            (W.entry work.old) (W.fits work.old) (W.tells work.old) }
        ensures seat { (seat.new.table_id ≡ seat.old.table_id) × (seat.new.id ≡ seat.old.id) }
        ensures subject { seat.new.me.0.subject ≡ Some self.now.subject }
        ensures number { seat.new.me.0.number ≡ seat.old.me.0.number }
        ensures idle { IsIdle seat.new.me }
        ensures sound { IsSound T.caller T.legal seat.new.me.0 }
        ensures begins { IsPrefix seat.old.me.0.seen seat.new.me.0.seen }
        ensures holds { (n : ℕ) → Holds seat.old.me.0.books n → Holds seat.new.me.0.books n }
        ensures turned { HasTurned T.caller T.legal (W.entry work.old) (W.tells work.old)
            (pass_of self.now seat.old.me.0) result (pass_of self.now seat.new.me.0) }
    {
        self.begin(rt, seat);
        let turned = self.run(seat, work);
        self.table.shared.fetch_add::<Raise<T>>(seat, 1, 1);
        self.wake(rt);
        turned
    }

    // Draws a ticket, and waits until it is served. The look at the serving number and the sleep are
    // under the gate, so that no raise falls between.
    fn begin(&self, rt: &impl Wait, seat: &mut Place<T>)
        requires lock { seat.old.table_id ≡ self.now.table }
        requires idle { IsIdle seat.old.me }
        requires subject { seat.old.me.0.subject ≡ Some self.now.subject }
        ensures seat { (seat.new.table_id ≡ seat.old.table_id) × (seat.new.id ≡ seat.old.id) }
        ensures taken { (ticket : ℕ) × HasTaken T.subject T.history T.caller T.legal
            (record seat.old.me.0 { ticket = Some ticket }, []) seat.new.me }
    {
        let ticket = self.table.shared.fetch_add::<Draw>(seat, 0, 1);
        let mut gate = self.gate.lock(rt);
        for _ in rt.forever() {
            if self.table.shared.load::<Enter<T>>(seat, 1) == ticket {
                break;
            }
            gate = self.served.wait(rt, gate);
        }
        drop(gate);
    }

    // Does the work on the value that the seat has taken.
    fn run<W: Work<T>>(&self, seat: &mut Place<T>, work: &mut W) -> Turned<W::Out>
        requires lock { seat.old.table_id ≡ self.now.table }
        requires taken { (taken : T) × Carries seat.old.me taken × W.fits work.old (T.subject taken) (T.history taken) }
        ensures seat { (seat.new.table_id ≡ seat.old.table_id) × (seat.new.id ≡ seat.old.id)
            × (seat.new.me.0 ≡ seat.old.me.0) }
        ensures done { (taken : T) → Carries seat.old.me taken
            → (value : T) × Carries seat.new.me value × (T.subject value ≡ T.subject taken)
            × (T.history value ≡ history_after result (W.entry work.old) (T.history taken))
            × W.tells work.old (T.subject taken) (T.history taken) result }
    {
        let Some(mut value) = self.table.shared.exchange(seat, 0, None) else {
            unreachable!()
        };
        let turned = work.turn(&mut value);
        self.table.shared.exchange(seat, 0, Some(value));
        turned
    }

    // Has the callers that sleep look at the serving number.
    fn wake(&self, rt: &impl Wait) {
        drop(self.gate.lock(rt));
        self.served.notify_all();
    }

    /// Ends the lock, and gives its value. The pass holds every number, so its books have the whole
    /// history.
    pub fn close(self, pass: Pass<T>) -> T
        requires lock { pass.lock ≡ self }
        requires all { HoldsAll pass }
        ensures subject { T.subject result ≡ self.subject }
        ensures history { T.history result ≡ pass.seen }
        ensures legal { T.legal self.subject (T.history result) }
        ensures booked { (n : ℕ) (entries : List T.Entry) → HasBook pass.books n entries
            → entries_of T.caller n (T.history result) ≡ entries }
        ensures numbered { AreNumbered T.caller pass.next (T.history result) }
    {
        let Pass { seat, .. } = pass;
        self.end(seat)
    }

    // The value of a lock that ends with a seat which holds every number.
    fn end(self, seat: Place<T>) -> T
        requires lock { seat.table_id ≡ self.table }
        requires idle { IsIdle seat.me }
        requires all { HoldsAll (pass_of self seat.me.0) }
        ensures { HasEnded T.subject T.history T.caller self.subject seat.me.0 result }
    {
        let Turn { table, .. } = self;
        let mut closed = table.close_with(seat);
        let slot = closed.take(0);
        closed.free();
        let Some(value) = slot else { unreachable!() };
        value
    }
}
