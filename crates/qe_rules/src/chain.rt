//! Chains of keys, and the cycles in them.

ghost use Rattle.std.specs.Prelude.{◌≡◌, ◌<◌, ◌++◌, ℕ, [], ◌∷◌, false, true, length, slice_index_or, IfOk, OnOk, MatchOption, None, List};
ghost use Rattle.std.specs.Ordering.{is_eq, is_gt};
ghost use Rattle.def_query.specs.Keys.{IsIn};
ghost use Rattle.def_query.specs.Map.{get};
ghost use Rattle.qe_rules.specs.Frame.{HasBegun};
ghost use Rattle.qe_rules.specs.Worker.{IsTurned, IsTaken};

use crate::cycle::Cycle;
use crate::known::Known;
use crate::rules::Rules;
use sl_base::NoMemory;
use std::alloc::Global;

// The keys that are worked out, each of which needs the next one, and their frames.
#[derive(Drop)]
pub(crate) struct Chain<R: Rules> {
    pub(crate) keys: Vec<R::Key>,
    pub(crate) frames: Vec<R::Frame>,
}

impl<R: Rules> Chain<R> {
    // A chain of no keys.
    pub(crate) fn new(alloc: Global) -> Chain<R>
        ensures keys { result.keys.items ≡ [] }
        ensures frames { result.frames.items ≡ [] }
    {
        Chain {
            keys: Vec::new(alloc),
            frames: Vec::new(alloc),
        }
    }

    // Begins a key behind the others.
    pub(crate) fn begin(&mut self, alloc: Global, rules: &R, key: R::Key) -> Result<(), NoMemory>
        ensures keys { OnOk result (self.new.keys.items ≡ self.old.keys.items ++ key ∷ []) }
        ensures frames { OnOk result (HasBegun (R.is_of rules.now) R.stands_for
            self.old.frames.items key self.new.frames.items) }
    {
        self.frames.push(rules.begin(alloc, &key)?)?;
        Ok(self.keys.push(key)?)
    }

    // Puts the frame of the last key back, and begins the key that it needs.
    pub(crate) fn go_down(
        &mut self,
        alloc: Global,
        rules: &R,
        frame: R::Frame,
        need: R::Key,
    ) -> Result<(), NoMemory>
        ensures keys { OnOk result (self.new.keys.items ≡ self.old.keys.items ++ need ∷ []) }
        ensures frames { OnOk result (HasBegun (R.is_of rules.now) R.stands_for
            (self.old.frames.items ++ frame ∷ []) need self.new.frames.items) }
    {
        self.frames.push(frame)?;
        self.begin(alloc, rules, need)
    }
}

// The place of a key.
pub(crate) fn place_of<K: Ord>(keys: &[K], key: &K) -> Option<usize>
    ensures { MatchOption result
        ((i : ℕ) (d : K) → i < length keys.now → is_eq (K.cmp (slice_index_or keys.now i d) key.now) ≡ false)
        (λ at. (at < length keys.now) × ((d : K) → is_eq (K.cmp (slice_index_or keys.now at d) key.now) ≡ true)) }
{
    for (at, found) in keys.iter().enumerate() {
        if found.cmp(key).is_eq() {
            return Some(at);
        }
    }
    None
}

// The place of a key that is greater than no other one.
fn least_place<K: Ord>(keys: &[K]) -> usize
    requires { 0 < length keys.now }
    ensures within { result < length keys.now }
    ensures least { (i : ℕ) (d : K) → i < length keys.now →
        is_gt (K.cmp (slice_index_or keys.now result d) (slice_index_or keys.now i d)) ≡ false }
{
    let mut least = 0;
    for i in 0..keys.len() {
        if keys[i].cmp(&keys[least]).is_lt() {
            least = i;
        }
    }
    least
}

// Copies of keys, in order.
fn copies<R: Rules>(rules: &R, alloc: Global, keys: &[R::Key]) -> Result<Vec<R::Key>, NoMemory>
    ensures { IfOk result (λ copies. copies.items ≡ keys.now) }
{
    let mut copies = Vec::new(alloc);
    for key in keys {
        copies.push(rules.copy_key(alloc, key)?)?;
    }
    Ok(copies)
}

// The keys as a cycle, from a place on at which the least of them stands.
pub(crate) fn turned<R: Rules>(
    rules: &R,
    alloc: Global,
    keys: &[R::Key],
) -> Result<Cycle<R::Key>, NoMemory>
    requires { 0 < length keys.now }
    ensures { IfOk result (λ cycle. IsTurned R.Key.cmp keys.now cycle) }
{
    let least = least_place(keys);
    let mut copies = copies(rules, alloc, keys)?;
    copies.as_mut_slice().rotate_left(least);
    Ok(Cycle::from_vec(copies))
}

// The answer that tells the cycle of the keys.
pub(crate) fn told<R: Rules>(
    rules: &R,
    alloc: Global,
    keys: &[R::Key],
) -> Result<R::Answer, NoMemory>
    requires { 0 < length keys.now }
    ensures { IfOk result (λ a. (c : List R.Key) × IsTurned R.Key.cmp keys.now c
        × (a ≡ (R.meaning rules.now).circular c)) }
{
    let cycle = turned(rules, alloc, keys)?;
    rules.circular(alloc, &cycle)
}

// Takes the last key from the chain, and makes its answer known.
pub(crate) fn settle<K: Ord + Drop, A: Drop>(known: &mut Known<K, A>, chain: &mut Vec<K>, answer: A)
    requires room { 0 < known.old.spare }
    requires some { 0 < length chain.old.items }
    requires unknown { (k : K) → IsIn k chain.old.items → get K.cmp known.old.pairs k ≡ None }
    ensures { IsTaken K.cmp known.old.pairs chain.old.items known.new.pairs chain.new.items answer }
{
    match chain.pop() {
        None => unreachable!(),
        Some(top) => {
            let _put = known.put(top, answer);
        }
    }
}
