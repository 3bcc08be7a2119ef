//! The table.

ghost use Rattle.std.specs.Prelude.{◌≡◌, ◌≢◌, ◌↔◌, ◌≤◌, length, IsTrue, IfOk, OnOk, OnErr, MatchOption, None, Some};
ghost use Rattle.std.specs.declared.cmp.Ordering.TheVariants.{Equal};
ghost use Rattle.def_query.specs.Map.{get};
ghost use Rattle.def_core.specs.State.{caller_at, with_caller, idle};
ghost use Rattle.def_core.specs.Replay.{Fits, outcome};
ghost use Rattle.def_core.specs.declared.event.Event.TheVariants.{Ask, Publish, Look, Abandon};
ghost use Rattle.qe_table.specs.Table.{state, opened, entered, after_look};

use crate::history::History;
use qe_core::{Core, Event, Outcome};
use qe_rules::Rules;
use sl_base::NoMemory;
use std::alloc::Global;
use std::marker::Model;
use std::snapshot::Snapshot;

/// What callers have published, claimed and wait for. Callers are numbered from 1. Contracts see a table
/// as the number of its callers and the history of its events, and by these alone: what it answers is what
/// comes of the next event after that history.
///
/// Each call looks among the published and the claimed keys as the same event of the core does, and the
/// history takes no memory and no time.
#[derive(Drop)]
pub struct Table<R: Rules> {
    core: Core<R>,
    history: History<Event<R::Key, R::Answer>>,
}

impl<R: Rules> Model for Table<R> {
    ghost use Rattle.std.specs.Prelude.{length};
    ghost use Rattle.def_core.specs.State.{IsSame};
    ghost use Rattle.def_core.specs.Replay.{replay};
    ghost use Rattle.qe_table.specs.Table.{TableState};

    ghost Value = { TableState R.Key R.Answer };

    ghost view = { λ t. record { callers = length t.core.callers; history = t.history } };

    ghost invariant = { λ t. IsSame R.Key.cmp t.core
        (replay R.Key.cmp (length t.core.callers) t.history) };
}

impl<R: Rules> Table<R> {
    /// A table of so many callers that have done nothing. Keys that compare equal are to be the same key,
    /// as rules demand.
    pub fn new(alloc: Global, callers: u32) -> Result<Table<R>, NoMemory>
        requires { (x y : R.Key) → R.Key.cmp x y ≡ Equal → x ≡ y }
        ensures { IfOk result (λ table. table ≡ opened callers) }
    {
        let core = Core::new(alloc, callers)?;
        let history = History::new();
        Ok(Table { core, history })
    }

    /// Whether the event is allowed: its caller is one of the callers, and an Ask comes where it does not
    /// wait, a Publish where it does not wait and has a chain, a Look where it waits, and an Abandon where
    /// it has a chain or waits.
    pub fn fits(&self, event: &Event<R::Key, R::Answer>) -> bool
        ensures { IsTrue result ↔ Fits R.Key.cmp (state R.Key.cmp self.now) event.now }
    {
        self.core.fits(event)
    }

    /// The caller asks for a key. After `NoMemory` nothing has changed. No other call takes memory: an Ask
    /// makes room for its own entry, and for the Publish, the Look and the Abandon that may follow.
    pub fn ask(
        &mut self,
        alloc: Global,
        rules: &R,
        caller: u32,
        key: &R::Key,
    ) -> Result<Outcome<R::Key>, NoMemory>
        requires { Fits R.Key.cmp (state R.Key.cmp self.old) (Ask caller key.now) }
        ensures outcome { IfOk result
            (λ o. o ≡ outcome R.Key.cmp (state R.Key.cmp self.old) (Ask caller key.now)) }
        ensures event { OnOk result (self.new ≡ entered self.old (Ask caller key.now)) }
        ensures err { OnErr result (self.new ≡ self.old) }
    {
        let event = Event::Ask(caller, rules.copy_key(alloc, key)?);
        let entry = Snapshot::of(&event);
        let outcome = self.core.apply(alloc, rules, event)?;
        self.history.push(entry);
        Ok(outcome)
    }

    /// The caller gives the last key of its chain this answer, for good.
    pub fn publish(&mut self, caller: u32, answer: R::Answer)
        requires { Fits R.Key.cmp (state R.Key.cmp self.old) (Publish caller answer) }
        ensures { self.new ≡ entered self.old (Publish caller answer) }
    {
        let event = Event::Publish(caller, answer);
        let entry = Snapshot::of(&event);
        self.core.apply_other(event);
        self.history.push(entry);
    }

    /// The caller looks again for the key that it waits for. Where this is claimed still, nothing changes
    /// and there is no event.
    pub fn look(&mut self, caller: u32) -> Outcome<R::Key>
        requires { Fits R.Key.cmp (state R.Key.cmp self.old) (Look caller) }
        ensures outcome { result ≡ outcome R.Key.cmp (state R.Key.cmp self.old) (Look caller) }
        ensures event { self.new ≡ after_look self.old caller result }
    {
        let event = Event::Look(caller);
        let entry = Snapshot::of(&event);
        let outcome = self.core.apply_other(event);
        if !matches!(outcome, Outcome::Wait(_)) {
            self.history.push(entry);
        }
        outcome
    }

    /// The caller gives back all that it has claimed, and waits no longer. Where it has claimed nothing and
    /// does not wait, nothing changes and there is no event.
    pub fn abandon(&mut self, caller: u32)
        requires { (1 ≤ caller) × (caller ≤ self.old.callers) }
        ensures event { caller_at (state R.Key.cmp self.old).callers caller ≢ idle →
            self.new ≡ entered self.old (Abandon caller) }
        ensures none { caller_at (state R.Key.cmp self.old).callers caller ≡ idle →
            self.new ≡ self.old }
        ensures gives_back { state R.Key.cmp self.new ≡ record {
          published = (state R.Key.cmp self.old).published;
          callers = with_caller (state R.Key.cmp self.old).callers caller idle;
        } }
    {
        let event = Event::Abandon(caller);
        if self.core.fits(&event) {
            let entry = Snapshot::of(&event);
            self.core.apply_other(event);
            self.history.push(entry);
        }
    }

    /// The answer of a published key.
    pub fn answer(&self, key: &R::Key) -> Option<&R::Answer>
        ensures { MatchOption result
            (get R.Key.cmp (state R.Key.cmp self.now).published key.now ≡ None)
            (λ a. get R.Key.cmp (state R.Key.cmp self.now).published key.now ≡ Some a.now) }
    {
        self.core.answer(key)
    }

    /// How many keys are published.
    pub fn worked(&self) -> u64
        ensures { result ≡ length (state R.Key.cmp self.now).published }
    {
        self.core.worked() as u64
    }
}
