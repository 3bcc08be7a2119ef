//! Histories of callers, event by event.

ghost use Rattle.std.specs.Prelude.{◌≡◌, [], IfOk};
ghost use Rattle.std.specs.Ordering.{nat_cmp};
ghost use Rattle.def_query.specs.Edges.{edge_meaning};
ghost use Rattle.def_query.proofs.Edges.{edges_lawful};
ghost use Rattle.qe_rules.specs.Frame.{IsRight};

use crate::{Core, Event, Outcome};
use qe_rules::{Anew, Bodies, Cycle, Known, Rules, Step, Steps, resume_anew};
use sl_base::{List, NoMemory};
use std::alloc::Global;
use std::process::Abort;
use std::sync::ledger::Ledger;
use std::test::Fail;

// Nothing is wrong, or a number is at fault, or a cycle is told.
type Told = Result<Option<u8>, List<u8>>;

// Rules under which no key needs another one. The machine works out no body: who calls it does.
#[derive(Drop)]
struct Plain;

impl Bodies for Plain {
    type Key = u8;

    type Answer = Told;

    ghost meaning = { λ r. edge_meaning [] 0 };

    fn step<L: Ledger>(
        &self,
        _alloc: Global,
        key: &u8,
        _known: &Known<u8, Told>,
        steps: &mut Steps<L>,
    ) -> Result<Step<u8, Told>, NoMemory> {
        steps.tick();
        Ok(Step::Done(Ok(if *key == 0 { Some(0) } else { None })))
    }

    fn copy_key(&self, _alloc: Global, key: &u8) -> Result<u8, NoMemory> {
        Ok(*key)
    }

    fn copy_answer(&self, alloc: Global, answer: &Told) -> Result<Told, NoMemory> {
        match answer {
            Ok(fault) => Ok(Ok(*fault)),
            Err(cycle) => told(alloc, cycle.as_slice()),
        }
    }

    ghost lawful = { λ r. edges_lawful [] 0 };
}

impl Rules for Plain {
    type Key = u8;

    type Answer = Told;

    type Frame = Anew<u8, Told>;

    ghost meaning = { λ r. edge_meaning [] 0 };

    ghost stands_for = { λ f. f };

    ghost is_of = { λ r f. IsRight nat_cmp (edge_meaning [] 0) f };

    fn step<L: Ledger>(
        &self,
        alloc: Global,
        key: &u8,
        known: &Known<u8, Told>,
        steps: &mut Steps<L>,
    ) -> Result<Step<u8, Told>, NoMemory> {
        Bodies::step(self, alloc, key, known, steps)
    }

    fn begin(&self, alloc: Global, key: &u8) -> Result<Anew<u8, Told>, NoMemory> {
        Ok(Anew::new(alloc, *key))
    }

    fn resume<L: Ledger>(
        &self,
        alloc: Global,
        frame: &mut Anew<u8, Told>,
        known: &Known<u8, Told>,
        steps: &mut Steps<L>,
    ) -> Result<Step<u8, Told>, NoMemory> {
        resume_anew(alloc, self, frame, known, steps)
    }

    fn circular(&self, alloc: Global, cycle: &Cycle<u8>) -> Result<Told, NoMemory> {
        told(alloc, cycle.as_slice())
    }

    fn copy_key(&self, alloc: Global, key: &u8) -> Result<u8, NoMemory> {
        Bodies::copy_key(self, alloc, key)
    }

    fn copy_answer(&self, alloc: Global, answer: &Told) -> Result<Told, NoMemory> {
        Bodies::copy_answer(self, alloc, answer)
    }

    ghost lawful = { λ r. edges_lawful [] 0 };

    ghost right = { λ r f of. of };
}

// The answer that tells a cycle.
fn told(alloc: Global, cycle: &[u8]) -> Result<Told, NoMemory>
    ensures { IfOk result (λ told. told ≡ Err cycle.now) }
{
    Ok(Err(List::from_slice(alloc, cycle)?))
}

// Applies an event that fits, and tells what it came to.
fn play(
    rt: &impl Abort,
    alloc: Global,
    core: &mut Core<Plain>,
    event: Event<u8, Told>,
) -> Result<Outcome<u8>, Fail> {
    assert!(rt; core.fits(&event), "the event does not fit");
    Ok(core.apply(alloc, &Plain, event)?)
}

fn asks_free(
    rt: &impl Abort,
    alloc: Global,
    core: &mut Core<Plain>,
    caller: u32,
    key: u8,
) -> Result<(), Fail> {
    let outcome = play(rt, alloc, core, Event::Ask(caller, key))?;
    assert!(rt;
        matches!(outcome, Outcome::Yours),
        "caller {caller} asks {key}"
    );
    Ok(())
}

fn waits(
    rt: &impl Abort,
    alloc: Global,
    core: &mut Core<Plain>,
    caller: u32,
    key: u8,
    owner: u32,
) -> Result<(), Fail> {
    match play(rt, alloc, core, Event::Ask(caller, key))? {
        Outcome::Wait(found) => assert_eq!(rt; found, owner),
        _ => panic!(rt; "caller {caller} does not wait"),
    }
    Ok(())
}

fn closes(
    rt: &impl Abort,
    alloc: Global,
    core: &mut Core<Plain>,
    caller: u32,
    key: u8,
    cycle: &[u8],
) -> Result<(), Fail> {
    match play(rt, alloc, core, Event::Ask(caller, key))? {
        Outcome::Circle(found) => assert_eq!(rt; found.as_slice(), cycle),
        _ => panic!(rt; "caller {caller} closes no cycle"),
    }
    Ok(())
}

fn publishes(
    rt: &impl Abort,
    alloc: Global,
    core: &mut Core<Plain>,
    caller: u32,
    answer: Told,
) -> Result<(), Fail> {
    let outcome = play(rt, alloc, core, Event::Publish(caller, answer))?;
    assert!(rt;
        matches!(outcome, Outcome::Published),
        "caller {caller} publishes"
    );
    Ok(())
}

fn sees(rt: &impl Abort, alloc: Global, core: &mut Core<Plain>, caller: u32) -> Result<(), Fail> {
    let outcome = play(rt, alloc, core, Event::Look(caller))?;
    assert!(rt; matches!(outcome, Outcome::Known), "caller {caller} looks");
    Ok(())
}

fn tells_cycle(rt: &impl Abort, core: &Core<Plain>, key: u8, cycle: &[u8]) {
    match core.answer(&key) {
        Some(Err(found)) => assert_eq!(rt; found.as_slice(), cycle),
        _ => panic!(rt; "{key} has no circular answer"),
    }
}

#[test]
fn three_callers_in_a_ring_tell_one_cycle(rt: HostRuntime) -> Result<(), Fail> {
    let alloc = rt.alloc();
    let mut core = Core::<Plain>::new(alloc, 3)?;
    asks_free(&rt, alloc, &mut core, 1, 10)?;
    asks_free(&rt, alloc, &mut core, 2, 11)?;
    asks_free(&rt, alloc, &mut core, 3, 12)?;
    waits(&rt, alloc, &mut core, 1, 11, 2)?;
    waits(&rt, alloc, &mut core, 2, 12, 3)?;
    closes(&rt, alloc, &mut core, 3, 10, &[10, 11, 12])?;
    publishes(&rt, alloc, &mut core, 3, told(alloc, &[10, 11, 12])?)?;
    sees(&rt, alloc, &mut core, 2)?;
    publishes(&rt, alloc, &mut core, 2, told(alloc, &[10, 11, 12])?)?;
    sees(&rt, alloc, &mut core, 1)?;
    publishes(&rt, alloc, &mut core, 1, told(alloc, &[10, 11, 12])?)?;
    tells_cycle(&rt, &core, 10, &[10, 11, 12]);
    tells_cycle(&rt, &core, 12, &[10, 11, 12]);
    Ok(())
}

#[test]
fn what_is_published_is_seen_by_who_waits(rt: HostRuntime) -> Result<(), Fail> {
    let alloc = rt.alloc();
    let mut core = Core::<Plain>::new(alloc, 2)?;
    asks_free(&rt, alloc, &mut core, 1, 7)?;
    waits(&rt, alloc, &mut core, 2, 7, 1)?;
    let early = play(&rt, alloc, &mut core, Event::Look(2))?;
    assert!(rt; matches!(early, Outcome::Wait(1)));
    assert!(rt; core.answer(&7).is_none());
    publishes(&rt, alloc, &mut core, 1, Ok(Some(7)))?;
    sees(&rt, alloc, &mut core, 2)?;
    assert!(rt; matches!(core.answer(&7), Some(Ok(Some(7)))));
    let again = play(&rt, alloc, &mut core, Event::Ask(2, 7))?;
    assert!(rt; matches!(again, Outcome::Known));
    Ok(())
}

#[test]
fn what_is_given_back_goes_to_who_waits(rt: HostRuntime) -> Result<(), Fail> {
    let alloc = rt.alloc();
    let mut core = Core::<Plain>::new(alloc, 2)?;
    asks_free(&rt, alloc, &mut core, 1, 6)?;
    publishes(&rt, alloc, &mut core, 1, Ok(None))?;
    asks_free(&rt, alloc, &mut core, 1, 7)?;
    waits(&rt, alloc, &mut core, 2, 7, 1)?;
    let given = play(&rt, alloc, &mut core, Event::Abandon(1))?;
    assert!(rt; matches!(given, Outcome::Abandoned));
    let taken = play(&rt, alloc, &mut core, Event::Look(2))?;
    assert!(rt; matches!(taken, Outcome::Yours));
    waits(&rt, alloc, &mut core, 1, 7, 2)?;
    assert!(rt; matches!(core.answer(&6), Some(Ok(None))));
    Ok(())
}

#[test]
fn a_key_that_needs_itself_is_a_cycle_of_one(rt: HostRuntime) -> Result<(), Fail> {
    let alloc = rt.alloc();
    let mut core = Core::<Plain>::new(alloc, 1)?;
    asks_free(&rt, alloc, &mut core, 1, 5)?;
    closes(&rt, alloc, &mut core, 1, 5, &[5])
}

#[test]
fn a_caller_that_leads_to_a_cycle_of_two_others_waits(rt: HostRuntime) -> Result<(), Fail> {
    let alloc = rt.alloc();
    let mut core = Core::<Plain>::new(alloc, 3)?;
    asks_free(&rt, alloc, &mut core, 1, 1)?;
    asks_free(&rt, alloc, &mut core, 2, 9)?;
    asks_free(&rt, alloc, &mut core, 3, 8)?;
    waits(&rt, alloc, &mut core, 1, 9, 2)?;
    waits(&rt, alloc, &mut core, 2, 8, 3)?;
    closes(&rt, alloc, &mut core, 3, 9, &[8, 9])
}

#[test]
fn two_callers_never_wait_for_each_other(rt: HostRuntime) -> Result<(), Fail> {
    let alloc = rt.alloc();
    let mut core = Core::<Plain>::new(alloc, 2)?;
    asks_free(&rt, alloc, &mut core, 1, 20)?;
    asks_free(&rt, alloc, &mut core, 2, 21)?;
    asks_free(&rt, alloc, &mut core, 1, 23)?;
    asks_free(&rt, alloc, &mut core, 2, 24)?;
    waits(&rt, alloc, &mut core, 1, 21, 2)?;
    closes(&rt, alloc, &mut core, 2, 20, &[20, 23, 21, 24])
}

#[test]
fn sixty_four_callers_wait_for_one_key(rt: HostRuntime) -> Result<(), Fail> {
    let alloc = rt.alloc();
    let mut core = Core::<Plain>::new(alloc, 64)?;
    asks_free(&rt, alloc, &mut core, 64, 3)?;
    for caller in 1..64 {
        waits(&rt, alloc, &mut core, caller, 3, 64)?;
    }
    publishes(&rt, alloc, &mut core, 64, Ok(Some(3)))?;
    for caller in 1..64 {
        sees(&rt, alloc, &mut core, caller)?;
    }
    Ok(())
}

#[test]
fn what_is_not_allowed_does_not_fit(rt: HostRuntime) -> Result<(), Fail> {
    let alloc = rt.alloc();
    let mut core = Core::<Plain>::new(alloc, 2)?;
    assert!(rt; !core.fits(&Event::Ask(0, 1)));
    assert!(rt; !core.fits(&Event::Ask(3, 1)));
    assert!(rt; !core.fits(&Event::Publish(1, Ok(None))));
    assert!(rt; !core.fits(&Event::Look(1)));
    assert!(rt; !core.fits(&Event::Abandon(1)));
    asks_free(&rt, alloc, &mut core, 1, 1)?;
    assert!(rt; core.fits(&Event::Abandon(1)));
    waits(&rt, alloc, &mut core, 2, 1, 1)?;
    assert!(rt; !core.fits(&Event::Ask(2, 2)));
    assert!(rt; core.fits(&Event::Abandon(2)));
    Ok(())
}
