//! The cycles that waits would close.

ghost use Rattle.std.specs.Prelude.{◌≡◌, ◌↔◌, length, IsTrue, IfOk, IsSome, is_some, Some};
ghost use Rattle.def_query.specs.Keys.{IsIn};
ghost use Rattle.def_core.specs.State.{claimed};
ghost use Rattle.def_core.specs.Needs.{Closes, closing, path};
ghost use Rattle.qe_chain.specs.Chains.{IsApart, IsCaller};

use crate::rotation::rotate;
use crate::waits::Waits;
use qe_rules::{Cycle, Rules};
use sl_base::NoMemory;
use std::alloc::Global;

/// Whether following current needs from a key reaches the last key of a caller's chain, so that a cycle
/// closes where this last key needs the first one. It takes no memory.
///
/// It follows current needs alone: a step within a chain costs one comparison, and a step to a key that
/// some caller waits for one look among the claimed keys.
pub fn closes<K: Ord + Drop>(waits: &Waits<K>, caller: u32, key: &K) -> bool
    requires { IsCaller waits.now caller }
    ensures exactly { IsTrue result ↔ Closes K.cmp waits.now caller key.now }
    ensures cycle { result ≡ is_some (closing K.cmp waits.now caller key.now) }
{
    let count = waits.open_count();
    match waits.last(caller) {
        None => false,
        Some(last) => reaches(waits, count, key, last),
    }
}

// Whether following current needs from a key reaches a claimed one, where so many are open.
fn reaches<K: Ord + Drop>(waits: &Waits<K>, count: usize, key: &K, last: &K) -> bool
    requires apart { IsApart K.cmp waits.now count }
    requires claimed { IsIn last.now (claimed waits.now) }
    ensures { result ≡
        is_some (path K.cmp waits.now (length (claimed waits.now)) key.now last.now) }
{
    let mut place = match waits.place(key) {
        None => return false,
        Some(place) => place,
    };
    for _ in 0..count {
        if waits.key(place).cmp(last).is_eq() {
            return true;
        }
        place = match waits.next(place) {
            None => return false,
            Some(next) => next,
        };
    }
    false
}

/// The cycle that closes where the last key of a caller's chain needs this key: the path of current needs
/// from the key to that last one, with its least key first.
pub fn cycle<R: Rules>(
    alloc: Global,
    rules: &R,
    waits: &Waits<R::Key>,
    caller: u32,
    key: &R::Key,
) -> Result<Cycle<R::Key>, NoMemory>
    requires caller { IsCaller waits.now caller }
    requires closes { IsSome (closing R.Key.cmp waits.now caller key.now) }
    ensures { IfOk result (λ y. closing R.Key.cmp waits.now caller key.now ≡ Some y) }
{
    match waits.last(caller) {
        None => unreachable!(),
        Some(last) => {
            let mut cycle = path_to(alloc, rules, waits, key, last)?;
            rotate(&mut cycle);
            Ok(cycle)
        }
    }
}

// The keys on the way of current needs from a key to a claimed one.
fn path_to<R: Rules>(
    alloc: Global,
    rules: &R,
    waits: &Waits<R::Key>,
    key: &R::Key,
    last: &R::Key,
) -> Result<Cycle<R::Key>, NoMemory>
    requires claimed { IsIn last.now (claimed waits.now) }
    requires reached { IsSome
        (path R.Key.cmp waits.now (length (claimed waits.now)) key.now last.now) }
    ensures { IfOk result (λ keys.
        path R.Key.cmp waits.now (length (claimed waits.now)) key.now last.now ≡ Some keys) }
{
    let count = waits.open_count();
    let mut keys = Vec::new(alloc);
    let mut place = match waits.place(key) {
        None => unreachable!(),
        Some(place) => place,
    };
    for _ in 0..count {
        let here = waits.key(place);
        keys.push(rules.copy_key(alloc, here)?)?;
        if here.cmp(last).is_eq() {
            return Ok(Cycle::from_vec(keys));
        }
        place = match waits.next(place) {
            None => unreachable!(),
            Some(next) => next,
        };
    }
    unreachable!()
}
