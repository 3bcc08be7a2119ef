//! The machine.

ghost use Rattle.std.specs.Prelude.{◌≡◌, ◌≢◌, ◌↔◌, ◌+◌, ◌^◌, ◌<◌, ◌≤◌, [], length, IsTrue, IsOk, IsSome, IfOk, OnOk, OnErr, MatchOption, None, Some};
ghost use Rattle.std.specs.declared.cmp.Ordering.TheVariants.{Equal};
ghost use Rattle.def_query.specs.Map.{get};
ghost use Rattle.def_core.specs.State.{State, IsSame, opening, caller_at};
ghost use Rattle.def_core.specs.Replay.{Fits, outcome, after};
ghost use Rattle.def_core.specs.declared.event.Event.TheVariants.{Ask, Publish, Look, Abandon};
ghost use Rattle.qe_chain.specs.Chains.{IsCaller, open_count};
ghost use Rattle.qe_core.specs.Kept.{IsNoAsk};

use crate::Outcome;
use def_core::Event;
use qe_chain::{Waits, closes, cycle};
use qe_rules::{Known, Rules};
use sl_base::NoMemory;
use std::alloc::Global;
use std::marker::Model;

/// What callers have published and claimed, and what they wait for. Callers are numbered from 1.
///
/// The published pairs are kept in the order of their keys: to look for one takes about as many
/// comparisons as their number has binary digits, and to publish one moves the pairs behind it. To look
/// for a claimed key takes a comparison with each claimed key at most. No event goes over all published
/// pairs.
#[derive(Drop)]
pub struct Core<R: Rules> {
    published: Known<R::Key, R::Answer>,
    waits: Waits<R::Key>,
}

impl<R: Rules> Model for Core<R> {
    ghost use Rattle.def_core.specs.State.{State};
    ghost use Rattle.qe_core.specs.Kept.{IsKept};

    ghost Value = { State R.Key R.Answer };

    ghost view = { λ c. record { published = c.published.pairs; callers = c.waits } };

    ghost invariant = { λ c. IsKept R.Key.cmp c.published.pairs c.waits c.published.spare };
}

impl<R: Rules> Core<R> {
    /// So many callers that have nothing, and nothing published. Keys that compare equal are to be the
    /// same key, as rules demand.
    pub fn new(alloc: Global, callers: u32) -> Result<Core<R>, NoMemory>
        requires { (x y : R.Key) → R.Key.cmp x y ≡ Equal → x ≡ y }
        ensures { IfOk result (λ core. core ≡ opening callers) }
    {
        let waits = Waits::new(alloc, callers)?;
        let published = Known::new(alloc);
        Ok(Core { published, waits })
    }

    /// The answer of a published key.
    pub fn answer(&self, key: &R::Key) -> Option<&R::Answer>
        ensures { MatchOption result (get R.Key.cmp self.now.published key.now ≡ None)
            (λ a. get R.Key.cmp self.now.published key.now ≡ Some a.now) }
    {
        self.published.get(key)
    }

    /// How many keys are published.
    pub fn worked(&self) -> usize
        ensures { result ≡ length self.now.published }
    {
        self.published.len()
    }

    /// Whether the event's caller is one of the callers and the event is allowed: an Ask where it does not
    /// wait, a Publish where it does not wait and has a chain, a Look where it waits, and an Abandon where
    /// it has a chain or waits.
    pub fn fits(&self, event: &Event<R::Key, R::Answer>) -> bool
        ensures { IsTrue result ↔ Fits R.Key.cmp self.now event.now }
    {
        match event {
            Event::Ask(caller, _) => self.has(*caller) && !self.awaits(*caller),
            Event::Publish(caller, _) => {
                self.has(*caller) && !self.awaits(*caller) && self.claims(*caller)
            }
            Event::Look(caller) => self.has(*caller) && self.awaits(*caller),
            Event::Abandon(caller) => {
                self.has(*caller) && (self.claims(*caller) || self.awaits(*caller))
            }
        }
    }

    /// One event. Only an Ask takes memory: it makes room for its own entry, and for the Publish, the Look
    /// and the Abandon that may follow. After `NoMemory` nothing has changed.
    ///
    /// An Ask and a Look look once among the published pairs and once among the claimed keys. An Ask of a
    /// claimed key follows current needs from it, with a look among the claimed keys for each caller on the
    /// way that waits, and goes the same way again to tell a cycle. A Publish puts one pair among the others.
    /// An Abandon drops its caller's keys.
    pub fn apply(
        &mut self,
        alloc: Global,
        rules: &R,
        event: Event<R::Key, R::Answer>,
    ) -> Result<Outcome<R::Key>, NoMemory>
        requires { Fits R.Key.cmp self.old event }
        ensures outcome { IfOk result (λ o. (s : State R.Key R.Answer) →
            IsSame R.Key.cmp self.old s → o ≡ outcome R.Key.cmp s event) }
        ensures state { OnOk result ((s : State R.Key R.Answer) →
            IsSame R.Key.cmp self.old s → IsSame R.Key.cmp self.new (after R.Key.cmp s event)) }
        ensures err { OnErr result (self.new ≡ self.old) }
        ensures no_memory { IsNoAsk event → IsOk result }
    {
        match event {
            Event::Ask(caller, key) => self.ask(alloc, rules, caller, key),
            other => Ok(self.apply_other(other)),
        }
    }

    /// One event other than an Ask. It takes no memory and reads no rules.
    pub fn apply_other(&mut self, event: Event<R::Key, R::Answer>) -> Outcome<R::Key>
        requires fits { Fits R.Key.cmp self.old event }
        requires no_ask { IsNoAsk event }
        ensures outcome { (s : State R.Key R.Answer) →
            IsSame R.Key.cmp self.old s → result ≡ outcome R.Key.cmp s event }
        ensures state { (s : State R.Key R.Answer) →
            IsSame R.Key.cmp self.old s → IsSame R.Key.cmp self.new (after R.Key.cmp s event) }
    {
        match event {
            Event::Ask(_, _) => unreachable!(),
            Event::Publish(caller, answer) => self.publish(caller, answer),
            Event::Look(caller) => self.look(caller),
            Event::Abandon(caller) => self.abandon(caller),
        }
    }

    // Whether the number is one of the callers'.
    fn has(&self, caller: u32) -> bool
        ensures { IsTrue result ↔ IsCaller self.now.callers caller }
    {
        1 <= caller && caller <= self.waits.callers()
    }

    // Whether the caller waits.
    fn awaits(&self, caller: u32) -> bool
        requires { IsCaller self.now.callers caller }
        ensures { IsTrue result ↔ IsSome (caller_at self.now.callers caller).awaits }
    {
        self.waits.awaited(caller).is_some()
    }

    // Whether the caller has claimed a key.
    fn claims(&self, caller: u32) -> bool
        requires { IsCaller self.now.callers caller }
        ensures { IsTrue result ↔ ((caller_at self.now.callers caller).chain ≢ []) }
    {
        !self.waits.chain(caller).is_empty()
    }

    fn ask(
        &mut self,
        alloc: Global,
        rules: &R,
        caller: u32,
        key: R::Key,
    ) -> Result<Outcome<R::Key>, NoMemory>
        requires { Fits R.Key.cmp self.old (Ask caller key) }
        ensures outcome { IfOk result (λ o. o ≡ outcome R.Key.cmp self.old (Ask caller key)) }
        ensures state { OnOk result (self.new ≡ after R.Key.cmp self.old (Ask caller key)) }
        ensures err { OnErr result (self.new ≡ self.old) }
    {
        if self.published.get(&key).is_some() {
            return Ok(Outcome::Known);
        }
        match self.waits.owner(&key) {
            None => {
                make_room(&mut self.published, &self.waits)?;
                self.waits.claim(caller, key)?;
                Ok(Outcome::Yours)
            }
            Some(owner) => {
                if closes(&self.waits, caller, &key) {
                    let cycle = cycle(alloc, rules, &self.waits, caller, &key)?;
                    return Ok(Outcome::Circle(cycle));
                }
                make_room(&mut self.published, &self.waits)?;
                self.waits.wait(caller, key)?;
                Ok(Outcome::Wait(owner))
            }
        }
    }

    fn publish(&mut self, caller: u32, answer: R::Answer) -> Outcome<R::Key>
        requires { Fits R.Key.cmp self.old (Publish caller answer) }
        ensures outcome { result ≡ outcome R.Key.cmp self.old (Publish caller answer) }
        ensures state { IsSame R.Key.cmp self.new
            (after R.Key.cmp self.old (Publish caller answer)) }
    {
        let key = self.waits.take(caller);
        let _put = self.published.put(key, answer);
        Outcome::Published
    }

    fn look(&mut self, caller: u32) -> Outcome<R::Key>
        requires { Fits {A = R.Answer} R.Key.cmp self.old (Look caller) }
        ensures outcome { result ≡ outcome R.Key.cmp self.old (Look caller) }
        ensures state { self.new ≡ after R.Key.cmp self.old (Look caller) }
    {
        let found = self.found(caller);
        match found {
            Outcome::Known => self.waits.stop(caller),
            Outcome::Yours => self.waits.take_up(caller),
            _ => {}
        }
        found
    }

    // What a Look of the caller comes to.
    fn found(&self, caller: u32) -> Outcome<R::Key>
        requires { Fits {A = R.Answer} R.Key.cmp self.now (Look caller) }
        ensures { result ≡ outcome R.Key.cmp self.now (Look caller) }
    {
        match self.waits.awaited(caller) {
            None => unreachable!(),
            Some(key) => {
                if self.published.get(key).is_some() {
                    return Outcome::Known;
                }
                match self.waits.owner(key) {
                    None => Outcome::Yours,
                    Some(owner) => Outcome::Wait(owner),
                }
            }
        }
    }

    fn abandon(&mut self, caller: u32) -> Outcome<R::Key>
        requires { Fits {A = R.Answer} R.Key.cmp self.old (Abandon caller) }
        ensures outcome { result ≡ outcome R.Key.cmp self.old (Abandon caller) }
        ensures state { self.new ≡ after R.Key.cmp self.old (Abandon caller) }
    {
        self.waits.clear(caller);
        Outcome::Abandoned
    }
}

// Makes room for the answer of one more key than are claimed or waited for.
fn make_room<K: Ord + Drop, A: Drop>(
    published: &mut Known<K, A>,
    waits: &Waits<K>,
) -> Result<(), NoMemory>
    ensures pairs { published.new.pairs ≡ published.old.pairs }
    ensures room { OnOk result (open_count waits.now + 1 ≤ published.new.spare) }
    ensures fits { OnOk result (open_count waits.now + 1 < 2 ^ 64) }
    ensures err { OnErr result (published.new.spare ≡ published.old.spare) }
{
    match waits.open_count().checked_add(1) {
        None => Err(NoMemory),
        Some(count) => published.reserve_for(count),
    }
}
