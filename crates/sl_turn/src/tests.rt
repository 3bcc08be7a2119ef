//! Turns of callers beside each other.
//!
//! What may differ between two runs, and what shows each: a test here, or a theorem for every schedule.
//!
//! | axis | sides, and what shows each |
//! |---|---|
//! | callers | one: `a_full_tally_..`; two: `a_caller_waits_..`; four: `four_callers_..` |
//! | turns | beside each other: `four_callers_..`; one after another: `the_last_pass_..` |
//! | a turn leaves | its entry: `four_callers_..`; nothing: `a_full_tally_..` |
//! | passes are joined | in turn: `the_last_pass_..`; by two threads at once: `passes_can_be_..` |
//! | memory | is there: each test; is refused: only `new` takes some, and drops the value |
//! | waits | in a row: `a_caller_waits_..`; in a ring: none, as a caller waits for one ticket alone |
//!
//! Claims, cycles, publishing and abandoning are events of the value: the laws of `qe_core` speak of them.
//! For every schedule: `HasTurned` says what one turn found and left, and `close` that the books have the
//! whole history, each entry once and in order.

ghost use Rattle.std.specs.Prelude.{◌≡◌, ◌⊎◌, ℕ, max, IfOk};
ghost use Rattle.def_turn.specs.Pass.{Holds, first_pass};

use crate::tally::{Add, AddSlowly, Tally};
use crate::{Pass, StandsFor, Turn, Turned};
use sl_base::{List, NoMemory};
use std::alloc::Global;
use std::process::Abort;
use std::sync::Wait;
use std::sync::atomic::AtomicBool;
use std::sync::atomic::Ordering::SeqCst;
use std::test::Fail;
use std::thread;
use std::thread::{Threads, join};
use std::time::Clock;

// How many turns a caller takes where callers take turns beside each other.
const STEPS: u64 = 1000;

fn lock_of(alloc: Global, limit: u64) -> Result<(Turn<Tally>, Pass<Tally>), NoMemory>
    ensures lock { IfOk result (λ r. r.1.lock ≡ r.0) }
    ensures next { IfOk result (λ r. r.1.next ≡ 2) }
    ensures holds { IfOk result (λ r. Holds r.1.books 1) }
{
    let entries = List::new(alloc);
    Turn::new(alloc, Tally { limit, entries })
}

// Takes a turn that adds an entry, and tells whether it did and how many there were.
fn add_once<R: Wait>(rt: &R, turn: &Turn<Tally>, pass: &mut Pass<Tally>, step: u64) -> (bool, u64)
    requires { pass.old.lock ≡ turn.now }
    ensures pass { (pass.new.lock ≡ pass.old.lock) × (pass.new.next ≡ pass.old.next) }
    ensures holds { (n : ℕ) → Holds pass.old.books n → Holds pass.new.books n }
{
    let caller = pass.caller();
    match turn.once(rt, pass, &mut Add { caller, step }) {
        Turned::Entered(place) => (true, place),
        Turned::Unchanged(place) => (false, place),
    }
}

// Takes all turns of a caller.
fn add_all<R: Wait>(rt: &R, turn: &Turn<Tally>, mut pass: Pass<Tally>) -> Pass<Tally>
    requires { pass.lock ≡ turn.now }
    ensures pass { (result.lock ≡ pass.lock) × (result.next ≡ pass.next) }
    ensures holds { (n : ℕ) → Holds pass.books n → Holds result.books n }
{
    for step in 0..STEPS {
        add_once(rt, turn, &mut pass, step);
    }
    pass
}

// Two callers take all their turns beside each other. The second is joined into the first.
fn add_both<R: Threads + Wait + Sync>(
    rt: &R,
    turn: &Turn<Tally>,
    one: Pass<Tally>,
    two: Pass<Tally>,
) -> Pass<Tally>
    requires one { one.lock ≡ turn.now }
    requires two { (two.lock ≡ turn.now) × (two.next ≡ 0) }
    ensures pass { (result.lock ≡ one.lock) × (result.next ≡ one.next) }
    ensures one { (n : ℕ) → Holds one.books n → Holds result.books n }
    ensures two { (n : ℕ) → Holds two.books n → Holds result.books n }
{
    let (mut one, two) = join(
        rt,
        || -> Pass<Tally>
            requires { one.lock ≡ turn.now }
            ensures { (result.lock ≡ one.lock) × (result.next ≡ one.next)
                × ((n : ℕ) → Holds one.books n → Holds result.books n) }
        { add_all(rt, turn, one) },
        || -> Pass<Tally>
            requires { two.lock ≡ turn.now }
            ensures { (result.lock ≡ two.lock) × (result.next ≡ two.next)
                × ((n : ℕ) → Holds two.books n → Holds result.books n) }
        { add_all(rt, turn, two) },
    );
    turn.join(&mut one, two);
    one
}

// Four callers take all their turns beside each other. All are joined into the first.
fn add_four<R: Threads + Wait + Sync>(
    rt: &R,
    turn: &Turn<Tally>,
    passes: (Pass<Tally>, Pass<Tally>, Pass<Tally>, Pass<Tally>),
) -> Pass<Tally>
    requires one { passes.0.lock ≡ turn.now }
    requires two { (passes.1.lock ≡ turn.now) × (passes.1.next ≡ 0) }
    requires three { (passes.2.lock ≡ turn.now) × (passes.2.next ≡ 0) }
    requires four { (passes.3.lock ≡ turn.now) × (passes.3.next ≡ 0) }
    ensures pass { (result.lock ≡ turn.now) × (result.next ≡ passes.0.next) }
    ensures one { (n : ℕ) → Holds passes.0.books n → Holds result.books n }
    ensures two { (n : ℕ) → Holds passes.1.books n → Holds result.books n }
    ensures three { (n : ℕ) → Holds passes.2.books n → Holds result.books n }
    ensures four { (n : ℕ) → Holds passes.3.books n → Holds result.books n }
{
    let (one, two, three, four) = passes;
    let (mut one, three) = join(
        rt,
        || -> Pass<Tally>
            requires { (one.lock ≡ turn.now) × (two.lock ≡ turn.now) × (two.next ≡ 0) }
            ensures { (result.lock ≡ one.lock) × (result.next ≡ one.next)
                × ((n : ℕ) → Holds one.books n → Holds result.books n)
                × ((n : ℕ) → Holds two.books n → Holds result.books n) }
        { add_both(rt, turn, one, two) },
        || -> Pass<Tally>
            requires { (three.lock ≡ turn.now) × (four.lock ≡ turn.now) × (four.next ≡ 0) }
            ensures { (result.lock ≡ three.lock) × (result.next ≡ three.next)
                × ((n : ℕ) → Holds three.books n → Holds result.books n)
                × ((n : ℕ) → Holds four.books n → Holds result.books n) }
        { add_both(rt, turn, three, four) },
    );
    turn.join(&mut one, three);
    one
}

#[test]
fn four_callers_enter_all_their_turns(rt: HostRuntime) -> Result<(), Fail> {
    let (turn, mut one) = lock_of(rt.alloc(), u64::MAX)?;
    let two = turn.split(&mut one, 2);
    let three = turn.split(&mut one, 3);
    let four = turn.split(&mut one, 4);
    let all = add_four(&rt, &turn, (one, two, three, four));
    let tally = turn.close(all);
    assert_eq!(rt; tally.entries.len(), 4 * STEPS as usize);
    for caller in 1..=4 {
        let own = tally
            .entries
            .as_slice()
            .iter()
            .filter(|e| e.caller == caller);
        assert!(rt; own.map(|e| e.step).eq(0..STEPS), "caller {caller}");
    }
    Ok(())
}

#[test]
fn a_full_tally_stays_as_it_was(rt: HostRuntime) -> Result<(), Fail> {
    let (turn, mut pass) = lock_of(rt.alloc(), 2)?;
    let first = add_once(&rt, &turn, &mut pass, 5);
    let second = add_once(&rt, &turn, &mut pass, 6);
    let third = add_once(&rt, &turn, &mut pass, 7);
    assert_eq!(rt; [first, second, third], [(true, 0), (true, 1), (false, 2)]);
    let tally = turn.close(pass);
    assert!(rt; tally.entries.as_slice().iter().map(|e| e.step).eq(5..7));
    Ok(())
}

// Joins two passes of any lock.
fn joined<T: StandsFor>(turn: &Turn<T>, mut one: Pass<T>, two: Pass<T>) -> Pass<T>
    requires { (one.lock ≡ turn.now) × (two.lock ≡ turn.now) }
    ensures pass { (result.lock ≡ one.lock) × (result.next ≡ max one.next two.next) }
    ensures holds { (n : ℕ) → Holds one.books n ⊎ Holds two.books n → Holds result.books n }
{
    turn.join(&mut one, two);
    one
}

// Two threads join passes of any lock at once.
fn join_pairs<T: StandsFor + Send, R: Threads + Sync>(
    rt: &R,
    turn: &Turn<T>,
    left: (Pass<T>, Pass<T>),
    right: (Pass<T>, Pass<T>),
) -> (Pass<T>, Pass<T>)
    requires left { (left.0.lock ≡ turn.now) × (left.1.lock ≡ turn.now) }
    requires right { (right.0.lock ≡ turn.now) × (right.1.lock ≡ turn.now) }
    ensures lock { (result.0.lock ≡ turn.now) × (result.1.lock ≡ turn.now) }
    ensures next { (result.0.next ≡ max left.0.next left.1.next)
        × (result.1.next ≡ max right.0.next right.1.next) }
    ensures left { (n : ℕ) → Holds left.0.books n ⊎ Holds left.1.books n → Holds result.0.books n }
    ensures right { (n : ℕ) → Holds right.0.books n ⊎ Holds right.1.books n
        → Holds result.1.books n }
{
    let (one, two) = left;
    let (three, four) = right;
    join(
        rt,
        || -> Pass<T>
            requires { (one.lock ≡ turn.now) × (two.lock ≡ turn.now) }
            ensures { (result.lock ≡ one.lock) × (result.next ≡ max one.next two.next)
                × ((n : ℕ) → Holds one.books n ⊎ Holds two.books n → Holds result.books n) }
        { joined(turn, one, two) },
        || -> Pass<T>
            requires { (three.lock ≡ turn.now) × (four.lock ≡ turn.now) }
            ensures { (result.lock ≡ three.lock) × (result.next ≡ max three.next four.next)
                × ((n : ℕ) → Holds three.books n ⊎ Holds four.books n → Holds result.books n) }
        { joined(turn, three, four) },
    )
}

#[test]
fn passes_can_be_joined_by_two_threads_at_once(rt: HostRuntime) -> Result<(), Fail> {
    let (turn, mut one) = lock_of(rt.alloc(), u64::MAX)?;
    let mut two = turn.split(&mut one, 2);
    let mut three = turn.split(&mut one, 3);
    let mut four = turn.split(&mut one, 4);
    add_once(&rt, &turn, &mut four, 0);
    add_once(&rt, &turn, &mut one, 0);
    add_once(&rt, &turn, &mut three, 0);
    add_once(&rt, &turn, &mut two, 0);
    let (mut one, three) = join_pairs(&rt, &turn, (one, two), (three, four));
    turn.join(&mut one, three);
    assert_eq!(rt; one.caller(), 1);
    let tally = turn.close(one);
    let callers = tally.entries.as_slice().iter().map(|e| e.caller);
    assert!(rt; callers.eq([4, 1, 3, 2]));
    Ok(())
}

#[test]
fn the_last_pass_can_take_in_the_others(rt: HostRuntime) -> Result<(), Fail> {
    let (turn, mut one) = lock_of(rt.alloc(), u64::MAX)?;
    let mut two = turn.split(&mut one, 2);
    add_once(&rt, &turn, &mut two, 0);
    add_once(&rt, &turn, &mut one, 0);
    turn.join(&mut two, one);
    let mut three = turn.split(&mut two, 3);
    add_once(&rt, &turn, &mut three, 0);
    add_once(&rt, &turn, &mut two, 1);
    turn.join(&mut three, two);
    assert_eq!(rt; three.caller(), 3);
    let tally = turn.close(three);
    let callers = tally.entries.as_slice().iter().map(|e| e.caller);
    assert!(rt; callers.eq([2, 1, 3, 2]));
    Ok(())
}

// Takes a turn that lasts a while, and sets `inside` when it is in it.
fn add_slowly<R: Wait + Clock>(
    rt: &R,
    turn: &Turn<Tally>,
    mut pass: Pass<Tally>,
    inside: &AtomicBool,
) -> Pass<Tally>
    requires { pass.lock ≡ turn.now }
    ensures pass { (result.lock ≡ pass.lock) × (result.next ≡ pass.next) }
    ensures holds { (n : ℕ) → Holds pass.books n → Holds result.books n }
{
    let caller = pass.caller();
    let add = Add { caller, step: 0 };
    turn.once(rt, &mut pass, &mut AddSlowly { rt, inside, add });
    pass
}

// Takes a turn, once another caller is in its turn.
fn add_after<R: Wait>(
    rt: &R,
    turn: &Turn<Tally>,
    mut pass: Pass<Tally>,
    inside: &AtomicBool,
) -> Pass<Tally>
    requires { pass.lock ≡ turn.now }
    ensures pass { (result.lock ≡ pass.lock) × (result.next ≡ pass.next) }
    ensures holds { (n : ℕ) → Holds pass.books n → Holds result.books n }
{
    for _ in rt.forever() {
        if inside.load(SeqCst) {
            break;
        }
        thread::yield_now();
    }
    add_once(rt, turn, &mut pass, 0);
    pass
}

// The second caller asks for its turn while the first is in a long one, and is joined into the first.
fn add_in_order<R: Threads + Wait + Clock + Sync>(
    rt: &R,
    turn: &Turn<Tally>,
    one: Pass<Tally>,
    two: Pass<Tally>,
) -> Pass<Tally>
    requires one { one.lock ≡ turn.now }
    requires two { (two.lock ≡ turn.now) × (two.next ≡ 0) }
    ensures pass { (result.lock ≡ one.lock) × (result.next ≡ one.next) }
    ensures one { (n : ℕ) → Holds one.books n → Holds result.books n }
    ensures two { (n : ℕ) → Holds two.books n → Holds result.books n }
{
    let inside = AtomicBool::new(false);
    let (mut one, two) = join(
        rt,
        || -> Pass<Tally>
            requires { one.lock ≡ turn.now }
            ensures { (result.lock ≡ one.lock) × (result.next ≡ one.next)
                × ((n : ℕ) → Holds one.books n → Holds result.books n) }
        { add_slowly(rt, turn, one, &inside) },
        || -> Pass<Tally>
            requires { two.lock ≡ turn.now }
            ensures { (result.lock ≡ two.lock) × (result.next ≡ two.next)
                × ((n : ℕ) → Holds two.books n → Holds result.books n) }
        { add_after(rt, turn, two, &inside) },
    );
    turn.join(&mut one, two);
    one
}

// The schedule that the test forces, from above down; `inside` is the flag between the two:
//
//     caller 1                              caller 2
//     draws ticket 0, is served
//     enters its turn, sets `inside`        loads `inside` until it is set
//     sleeps 50 ms within its turn          draws ticket 1, waits
//     adds its entry, ends its turn         .
//     .                                     is served, adds its entry
//
// The history is therefore 1, 2. Were the lock to let caller 2 in while caller 1 sleeps, it would be 2, 1.
#[test]
fn a_caller_waits_until_the_turn_before_ends(rt: HostRuntime) -> Result<(), Fail> {
    let (turn, mut one) = lock_of(rt.alloc(), u64::MAX)?;
    let two = turn.split(&mut one, 2);
    let both = add_in_order(&rt, &turn, one, two);
    let tally = turn.close(both);
    let callers = tally.entries.as_slice().iter().map(|e| e.caller);
    assert!(rt; callers.eq([1, 2]));
    Ok(())
}
