//! Works, one after the other, on a value behind no lock.

ghost use Rattle.std.specs.Prelude.{◌≡◌, [], IfOk};
ghost use Rattle.std.specs.Ordering.{nat_cmp};
ghost use Rattle.def_query.specs.Edges.{edge_meaning};
ghost use Rattle.def_query.proofs.Edges.{edges_lawful};
ghost use Rattle.qe_rules.specs.Frame.{IsRight};

use crate::{Abandons, Asks, Publishes, Reply, Shared};
use qe_core::{Event, Outcome};
use qe_rules::{Anew, Bodies, Cycle, Known, Rules, Step, Steps, resume_anew};
use qe_table::Table;
use sl_base::{List, NoMemory};
use sl_turn::{Turned, Work};
use std::alloc::Global;
use std::process::Abort;
use std::snapshot::Snapshot;
use std::sync::ledger::Ledger;
use std::test::Fail;

// Nothing is wrong, or a number is at fault, or a cycle is told.
type Told = Result<Option<u8>, List<u8>>;

// Rules under which no key needs another one. A table works out no body: who calls it does.
#[derive(Drop)]
struct Plain;

impl Bodies for Plain {
    type Key = u8;

    type Answer = Told;

    ghost meaning = { λ r. edge_meaning [] 0 };

    fn step<L: Ledger>(
        &self,
        _alloc: Global,
        key: &u8,
        _known: &Known<u8, Told>,
        steps: &mut Steps<L>,
    ) -> Result<Step<u8, Told>, NoMemory> {
        steps.tick();
        Ok(Step::Done(Ok(if *key == 0 { Some(0) } else { None })))
    }

    fn copy_key(&self, _alloc: Global, key: &u8) -> Result<u8, NoMemory> {
        Ok(*key)
    }

    fn copy_answer(&self, alloc: Global, answer: &Told) -> Result<Told, NoMemory> {
        match answer {
            Ok(fault) => Ok(Ok(*fault)),
            Err(cycle) => told(alloc, cycle.as_slice()),
        }
    }

    ghost lawful = { λ r. edges_lawful [] 0 };
}

impl Rules for Plain {
    type Key = u8;

    type Answer = Told;

    type Frame = Anew<u8, Told>;

    ghost meaning = { λ r. edge_meaning [] 0 };

    ghost stands_for = { λ f. f };

    ghost is_of = { λ r f. IsRight nat_cmp (edge_meaning [] 0) f };

    fn step<L: Ledger>(
        &self,
        alloc: Global,
        key: &u8,
        known: &Known<u8, Told>,
        steps: &mut Steps<L>,
    ) -> Result<Step<u8, Told>, NoMemory> {
        Bodies::step(self, alloc, key, known, steps)
    }

    fn begin(&self, alloc: Global, key: &u8) -> Result<Anew<u8, Told>, NoMemory> {
        Ok(Anew::new(alloc, *key))
    }

    fn resume<L: Ledger>(
        &self,
        alloc: Global,
        frame: &mut Anew<u8, Told>,
        known: &Known<u8, Told>,
        steps: &mut Steps<L>,
    ) -> Result<Step<u8, Told>, NoMemory> {
        resume_anew(alloc, self, frame, known, steps)
    }

    fn circular(&self, alloc: Global, cycle: &Cycle<u8>) -> Result<Told, NoMemory> {
        told(alloc, cycle.as_slice())
    }

    fn copy_key(&self, alloc: Global, key: &u8) -> Result<u8, NoMemory> {
        Bodies::copy_key(self, alloc, key)
    }

    fn copy_answer(&self, alloc: Global, answer: &Told) -> Result<Told, NoMemory> {
        Bodies::copy_answer(self, alloc, answer)
    }

    ghost lawful = { λ r. edges_lawful [] 0 };

    ghost right = { λ r f of. of };
}

// The answer that tells a cycle.
fn told(alloc: Global, cycle: &[u8]) -> Result<Told, NoMemory>
    ensures { IfOk result (λ told. told ≡ Err cycle.now) }
{
    Ok(Err(List::from_slice(alloc, cycle)?))
}

// Asks, where this is allowed.
fn asks(
    rt: &impl Abort,
    alloc: Global,
    shared: &mut Shared<Plain>,
    caller: u32,
    key: u8,
) -> Reply<Plain> {
    assert!(rt;
        shared.table.fits(&Event::Ask(caller, key)),
        "{caller} may not ask {key}"
    );
    let mut work = Asks {
        alloc,
        rules: &Plain,
        caller,
        key: &key,
    };
    match work.turn(shared) {
        Turned::Entered(Ok(reply)) => reply,
        _ => panic!(rt; "no event"),
    }
}

// Publishes that nothing is wrong, where this is allowed.
fn publishes(rt: &impl Abort, shared: &mut Shared<Plain>, caller: u32) {
    assert!(rt;
        shared.table.fits(&Event::Publish(caller, Ok(None))),
        "{caller} may not publish"
    );
    let mut work = Publishes {
        caller,
        answer: Some(Ok(None)),
    };
    assert!(rt; matches!(work.turn(shared), Turned::Entered(())));
}

// Abandons, where this is allowed.
fn abandons(rt: &impl Abort, shared: &mut Shared<Plain>, caller: u32) {
    assert!(rt;
        shared.table.fits(&Event::Abandon(caller)),
        "{caller} may not abandon"
    );
    let mut work = Abandons { caller };
    assert!(rt; matches!(work.turn(shared), Turned::Entered(())));
}

//  caller 1        caller 2
//  ask 5: its own
//                  ask 6: its own
//                  abandon
//  ask 6: its own
//  publish 6
//                  ask 6: its answer
//                  ask 5: caller 1 has it
#[test]
fn works_tell_what_their_events_come_to(rt: HostRuntime) -> Result<(), Fail> {
    let alloc = rt.alloc();
    let table = Table::new(alloc, 2)?;
    let mut shared = Shared {
        table,
        rules: Snapshot::of(&Plain),
    };
    assert!(rt; matches!(asks(&rt, alloc, &mut shared, 1, 5).outcome, Outcome::Yours));
    assert!(rt; matches!(asks(&rt, alloc, &mut shared, 2, 6).outcome, Outcome::Yours));
    abandons(&rt, &mut shared, 2);
    assert!(rt; matches!(asks(&rt, alloc, &mut shared, 1, 6).outcome, Outcome::Yours));
    publishes(&rt, &mut shared, 1);
    let told = asks(&rt, alloc, &mut shared, 2, 6);
    assert!(rt; matches!(told.outcome, Outcome::Known));
    assert!(rt; matches!(told.answer, Some(Ok(None))));
    assert!(rt;
        matches!(
            asks(&rt, alloc, &mut shared, 2, 5).outcome,
            Outcome::Wait(1)
        )
    );
    Ok(())
}
