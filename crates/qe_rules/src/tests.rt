//! Rules over edges between numbers, and what is answered by them.

ghost use Rattle.std.specs.Prelude.{◌≡◌, IfOk};
ghost use Rattle.std.specs.Ordering.{nat_cmp};
ghost use Rattle.def_query.specs.Edges.{edge_meaning};
ghost use Rattle.def_query.proofs.Edges.{edges_lawful};
ghost use Rattle.qe_rules.specs.Frame.{IsRight};

use crate::{
    AloneAsker, Anew, Asker, Bodies, Cycle, Known, Rules, Step, Steps, alone, resume_anew,
};
use sl_base::{List, NoMemory};
use std::alloc::Global;
use std::marker::Brand;
use std::process::Abort;
use std::sync::atomic::{AtomicU64, Ordering};
use std::sync::ledger::{Blank, Ledger};
use std::test::Fail;

// Nothing is wrong, or a number is at fault, or a cycle is told.
type Told = Result<Option<u8>, List<u8>>;

// Each number uses those to which its edges lead, in their order. `bad` is at fault.
#[derive(Drop)]
struct Edges {
    edges: Vec<(u8, u8)>,
    bad: u8,
    begun: AtomicU64,
    resumed: AtomicU64,
}

impl Bodies for Edges {
    type Key = u8;

    type Answer = Told;

    ghost meaning = { λ r. edge_meaning r.edges.items r.bad };

    fn step<L: Ledger>(
        &self,
        alloc: Global,
        key: &u8,
        known: &Known<u8, Told>,
        steps: &mut Steps<L>,
    ) -> Result<Step<u8, Told>, NoMemory> {
        for edge in &self.edges {
            if edge.0 == *key {
                match known.get(&edge.1) {
                    None => return Ok(Step::Needs(edge.1)),
                    Some(Ok(None)) => {}
                    Some(Ok(Some(fault))) => {
                        steps.tick();
                        return Ok(Step::Done(Ok(Some(*fault))));
                    }
                    Some(Err(cycle)) => {
                        let told = told(alloc, cycle.as_slice())?;
                        steps.tick();
                        return Ok(Step::Done(told));
                    }
                }
            }
        }
        steps.tick();
        Ok(Step::Done(Ok(if self.bad == *key { Some(*key) } else { None })))
    }

    fn copy_key(&self, _alloc: Global, key: &u8) -> Result<u8, NoMemory> {
        Ok(*key)
    }

    fn copy_answer(&self, alloc: Global, answer: &Told) -> Result<Told, NoMemory> {
        match answer {
            Ok(fault) => Ok(Ok(*fault)),
            Err(cycle) => told(alloc, cycle.as_slice()),
        }
    }

    ghost lawful = { λ r. edges_lawful r.edges.items r.bad };
}

impl Rules for Edges {
    type Key = u8;

    type Answer = Told;

    type Frame = Anew<u8, Told>;

    ghost meaning = { λ r. edge_meaning r.edges.items r.bad };

    ghost stands_for = { λ f. f };

    ghost is_of = { λ r f. IsRight nat_cmp (edge_meaning r.edges.items r.bad) f };

    fn step<L: Ledger>(
        &self,
        alloc: Global,
        key: &u8,
        known: &Known<u8, Told>,
        steps: &mut Steps<L>,
    ) -> Result<Step<u8, Told>, NoMemory> {
        Bodies::step(self, alloc, key, known, steps)
    }

    fn begin(&self, alloc: Global, key: &u8) -> Result<Anew<u8, Told>, NoMemory> {
        self.begun.fetch_add(1, Ordering::SeqCst);
        Ok(Anew::new(alloc, *key))
    }

    fn resume<L: Ledger>(
        &self,
        alloc: Global,
        frame: &mut Anew<u8, Told>,
        known: &Known<u8, Told>,
        steps: &mut Steps<L>,
    ) -> Result<Step<u8, Told>, NoMemory> {
        self.resumed.fetch_add(1, Ordering::SeqCst);
        resume_anew(alloc, self, frame, known, steps)
    }

    fn circular(&self, alloc: Global, cycle: &Cycle<u8>) -> Result<Told, NoMemory> {
        told(alloc, cycle.as_slice())
    }

    fn copy_key(&self, alloc: Global, key: &u8) -> Result<u8, NoMemory> {
        Bodies::copy_key(self, alloc, key)
    }

    fn copy_answer(&self, alloc: Global, answer: &Told) -> Result<Told, NoMemory> {
        Bodies::copy_answer(self, alloc, answer)
    }

    ghost lawful = { λ r. edges_lawful r.edges.items r.bad };

    ghost right = { λ r f of. of };
}

// The answer that tells a cycle.
fn told(alloc: Global, cycle: &[u8]) -> Result<Told, NoMemory>
    ensures { IfOk result (λ told. told ≡ Err cycle.now) }
{
    Ok(Err(List::from_slice(alloc, cycle)?))
}

// A chain of four, a cycle of two with a key that leads to it, and a loop.
fn sample(alloc: Global) -> Result<Edges, NoMemory> {
    let edges = vec![in alloc; (0, 1), (1, 2), (2, 3), (9, 8), (8, 9), (10, 9), (11, 11)]?;
    Ok(Edges {
        edges,
        bad: 12,
        begun: AtomicU64::new(0),
        resumed: AtomicU64::new(0),
    })
}

#[test]
fn a_cycle_is_the_same_from_each_key_and_begins_with_the_least(
    rt: HostRuntime,
) -> Result<(), Fail> {
    expect_cycle::<Brand>(&rt, rt.alloc(), Blank::new(1), 8, &[8, 9], 2)?;
    expect_cycle::<Brand>(&rt, rt.alloc(), Blank::new(1), 9, &[8, 9], 2)?;
    expect_cycle::<Brand>(&rt, rt.alloc(), Blank::new(1), 10, &[8, 9], 3)?;
    expect_cycle::<Brand>(&rt, rt.alloc(), Blank::new(1), 11, &[11], 1)
}

#[test]
fn each_body_is_begun_once_and_goes_on_behind_each_need(rt: HostRuntime) -> Result<(), Fail> {
    expect_calls::<Brand>(&rt, rt.alloc(), Blank::new(1))
}

// Answers the first key of the chain of four, and counts what it took.
fn expect_calls<L: Ledger>(rt: &impl Abort, alloc: Global, blank: Blank) -> Result<(), Fail>
    requires name { blank.name ≡ L.name }
    requires parts { blank.parts ≡ L.parts }
    requires one { blank.parts ≡ 1 }
{
    let rules = sample(alloc)?;
    let mut known = Known::new(alloc);
    let mut steps = Steps::<L>::new(blank);
    let _zero = alone(alloc, &rules, &mut known, &0, &mut steps)?;
    assert_eq!(rt; rules.begun.load(Ordering::SeqCst), 4);
    assert_eq!(rt; rules.resumed.load(Ordering::SeqCst), 7);
    Ok(())
}

// Asks the key of a fresh asker, and tells the answer and how many keys were worked out.
fn ask<L: Ledger>(
    rt: &impl Abort,
    alloc: Global,
    blank: Blank,
    key: u8,
) -> Result<(Told, usize), Fail>
    requires name { blank.name ≡ L.name }
    requires parts { blank.parts ≡ L.parts }
    requires one { blank.parts ≡ 1 }
{
    let rules = sample(alloc)?;
    let mut asker = AloneAsker::new(alloc, &rules);
    let mut steps = Steps::<L>::new(blank);
    let answer = asker.ask(alloc, &key, &mut steps)?;
    let worked = asker.worked();
    let again = asker.ask(alloc, &key, &mut steps)?;
    assert_eq!(rt; asker.worked(), worked);
    let _ = again;
    Ok((answer, worked))
}

fn expect_cycle<L: Ledger>(
    rt: &impl Abort,
    alloc: Global,
    blank: Blank,
    key: u8,
    keys: &[u8],
    count: usize,
) -> Result<(), Fail>
    requires name { blank.name ≡ L.name }
    requires parts { blank.parts ≡ L.parts }
    requires one { blank.parts ≡ 1 }
{
    let (answer, worked) = ask::<L>(rt, alloc, blank, key)?;
    assert_eq!(rt; worked, count);
    match answer {
        Ok(_) => panic!(rt; "no cycle"),
        Err(cycle) => assert_eq!(rt; cycle.as_slice(), keys),
    }
    Ok(())
}
