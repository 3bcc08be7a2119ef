//! A value for the tests: entries of callers, up to a limit.

ghost use Rattle.std.specs.Prelude.{◌≡◌, ◌<◌, length};

use crate::{StandsFor, Turned, Work};
use sl_base::List;
use std::sync::atomic::AtomicBool;
use std::sync::atomic::Ordering::SeqCst;
use std::thread;
use std::time::{Clock, Duration};

/// Whose turn it was, and which of its turns.
#[derive(Clone, Copy, Debug, PartialEq, Eq)]
pub struct Entry {
    pub caller: u32,
    pub step: u64,
}

/// The entries so far, of which there are no more than the limit.
#[derive(Drop)]
pub struct Tally {
    pub limit: u64,
    pub entries: List<Entry>,
}

impl StandsFor for Tally {
    type Subject = u64;

    type Entry = Entry;

    ghost use Rattle.std.specs.Prelude.{◌≤◌, length};

    ghost subject = { λ tally. tally.limit };

    ghost history = { λ tally. tally.entries };

    ghost caller = { λ entry. entry.caller };

    ghost legal = { λ limit history. length history ≤ limit };
}

/// Adds an entry where the limit is not reached, and answers how many there were before.
#[derive(Drop)]
pub struct Add {
    pub caller: u32,
    pub step: u64,
}

impl Work<Tally> for Add {
    type Out = u64;

    ghost use Rattle.std.specs.Prelude.{◌≡◌, ◌<◌, length};
    ghost use Rattle.sl_turn.specs.Once.{IfEntered, IfUnchanged};

    ghost entry = { λ add. record { caller = add.caller; step = add.step } };

    ghost fits = { λ add limit history. Unit {0} };

    ghost tells = { λ add limit history turned.
        IfEntered turned (λ place. (place ≡ length history) × (place < limit))
        × IfUnchanged turned (λ place. place ≡ length history) };

    fn turn(&mut self, value: &mut Tally) -> Turned<u64> {
        let place = value.entries.len() as u64;
        if place >= value.limit {
            return Turned::Unchanged(place);
        }
        let entry = Entry {
            caller: self.caller,
            step: self.step,
        };
        match value.entries.push(entry) {
            Ok(()) => Turned::Entered(place),
            Err(_) => Turned::Unchanged(place),
        }
    }
}

/// Says that it is in its turn, stays in it for a while, and adds an entry.
#[derive(Drop)]
pub struct AddSlowly<'a, R> {
    pub rt: &'a R,
    pub inside: &'a AtomicBool,
    pub add: Add,
}

impl<R: Clock> Work<Tally> for AddSlowly<'_, R> {
    type Out = u64;

    ghost use Rattle.std.specs.Prelude.{◌≡◌, ◌<◌, length};
    ghost use Rattle.sl_turn.specs.Once.{IfEntered, IfUnchanged};

    ghost entry = { λ slow. record { caller = slow.add.caller; step = slow.add.step } };

    ghost fits = { λ slow limit history. Unit {0} };

    ghost tells = { λ slow limit history turned.
        IfEntered turned (λ place. (place ≡ length history) × (place < limit))
        × IfUnchanged turned (λ place. place ≡ length history) };

    fn turn(&mut self, value: &mut Tally) -> Turned<u64> {
        self.inside.store(true, SeqCst);
        thread::sleep(self.rt, Duration::from_millis(50));
        self.add.turn(value)
    }
}
