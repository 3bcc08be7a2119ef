//! The chains of all callers, and what each caller waits for.

ghost use Rattle.std.specs.Prelude.{◌≡◌, ◌≢◌, ◌+◌, ◌^◌, ◌<◌, ◌≤◌, ◌++◌, [], ◌∷◌, length, replicate, slice_index_or, IfOk, OnOk, OnErr, MatchOption, None, Some, IsSome};
ghost use Rattle.std.specs.declared.cmp.Ordering.TheVariants.{Equal};
ghost use Rattle.def_core.specs.State.{caller_at, with_caller, idle, last, without_last};
ghost use Rattle.def_core.specs.Needs.{owner, need};
ghost use Rattle.qe_chain.specs.Chains.{IsCaller, IsPlace, IsWithin, IsApart, GoesOn, open_count};

use crate::claims::Claims;
use crate::place::{Place, index_of};
use sl_base::NoMemory;
use std::alloc::Global;
use std::marker::Model;

/// One chain of keys for each caller, and what each caller waits for. The keys of all chains differ.
///
/// Callers are numbered from 1. To look for a key takes a comparison with each claimed key at most.
#[derive(Drop)]
pub struct Waits<K: Ord + Drop> {
    callers: Vec<Claims<K>>,
    count: usize,
}

impl<K: Ord + Drop> Model for Waits<K> {
    ghost use Rattle.std.specs.Prelude.{List};
    ghost use Rattle.def_core.specs.State.{Caller};
    ghost use Rattle.qe_chain.specs.Chains.{IsApart};

    ghost Value = { List (Caller K) };

    ghost view = { λ w. w.callers.items };

    ghost invariant = { λ w. IsApart K.cmp w.callers.items w.count };
}

impl<K: Ord + Drop> Waits<K> {
    /// So many callers that have nothing. Keys that compare equal are to be the same key.
    pub fn new(alloc: Global, callers: u32) -> Result<Waits<K>, NoMemory>
        requires { (x y : K) → K.cmp x y ≡ Equal → x ≡ y }
        ensures { IfOk result (λ waits. waits ≡ replicate callers idle) }
    {
        let mut claims = Vec::new(alloc);
        for _ in 0..callers {
            claims.push(Claims::new(alloc))?;
        }
        Ok(Waits {
            callers: claims,
            count: 0,
        })
    }

    /// How many callers there are.
    pub fn callers(&self) -> u32
        ensures { result ≡ length self.now }
    {
        self.callers.len() as u32
    }

    /// How many keys are claimed and how many callers wait, together.
    pub fn open_count(&self) -> usize
        ensures { IsApart K.cmp self.now result }
    {
        self.count
    }

    /// The keys that a caller has claimed, the first claimed first.
    pub fn chain(&self, caller: u32) -> &[K]
        requires { IsCaller self.now caller }
        ensures { result.now ≡ (caller_at self.now caller).chain }
    {
        self.callers[caller as usize - 1].chain()
    }

    /// The key that a caller claimed last.
    pub fn last(&self, caller: u32) -> Option<&K>
        requires { IsCaller self.now caller }
        ensures { MatchOption result (last (caller_at self.now caller).chain ≡ None)
            (λ k. last (caller_at self.now caller).chain ≡ Some k.now) }
    {
        let chain = self.chain(caller);
        if chain.is_empty() {
            return None;
        }
        Some(&chain[chain.len() - 1])
    }

    /// The key that a caller waits for.
    pub fn awaited(&self, caller: u32) -> Option<&K>
        requires { IsCaller self.now caller }
        ensures { MatchOption result ((caller_at self.now caller).awaits ≡ None)
            (λ k. (caller_at self.now caller).awaits ≡ Some k.now) }
    {
        self.callers[caller as usize - 1].awaited()
    }

    /// The number of the caller that has claimed a key.
    pub fn owner(&self, key: &K) -> Option<u32>
        ensures { result ≡ owner K.cmp self.now key.now }
    {
        match self.place(key) {
            None => None,
            Some(place) => Some(place.caller as u32 + 1),
        }
    }

    /// Puts a key that nobody has claimed behind the others of a caller that does not wait. After
    /// `NoMemory` nothing has changed.
    pub fn claim(&mut self, caller: u32, key: K) -> Result<(), NoMemory>
        requires caller { IsCaller self.old caller }
        requires free { (caller_at self.old caller).awaits ≡ None }
        requires unclaimed { owner K.cmp self.old key ≡ None }
        requires fits { open_count self.old + 1 < 2 ^ 64 }
        ensures ok { OnOk result (self.new ≡ with_caller self.old caller
            record { chain = (caller_at self.old caller).chain ++ key ∷ []; awaits = None }) }
        ensures err { OnErr result (self.new ≡ self.old) }
    {
        let claims = &mut self.callers[caller as usize - 1];
        claims.claim(key)?;
        self.count += 1;
        Ok(())
    }

    /// Lets a caller that does not wait wait for a key. It makes room for the key in the caller's chain.
    /// After `NoMemory` nothing has changed.
    pub fn wait(&mut self, caller: u32, key: K) -> Result<(), NoMemory>
        requires caller { IsCaller self.old caller }
        requires free { (caller_at self.old caller).awaits ≡ None }
        requires fits { open_count self.old + 1 < 2 ^ 64 }
        ensures ok { OnOk result (self.new ≡ with_caller self.old caller
            record { chain = (caller_at self.old caller).chain; awaits = Some key }) }
        ensures err { OnErr result (self.new ≡ self.old) }
    {
        let claims = &mut self.callers[caller as usize - 1];
        claims.wait(key)?;
        self.count += 1;
        Ok(())
    }

    /// Lets a caller that waits wait no longer. It takes no memory.
    pub fn stop(&mut self, caller: u32)
        requires caller { IsCaller self.old caller }
        requires waits { IsSome (caller_at self.old caller).awaits }
        ensures { self.new ≡ with_caller self.old caller
            record { chain = (caller_at self.old caller).chain; awaits = None } }
    {
        self.count -= 1;
        let claims = &mut self.callers[caller as usize - 1];
        claims.stop();
    }

    /// Puts the key that a caller waits for, and that nobody has claimed, behind the others of this
    /// caller, which waits no longer. It takes no memory.
    pub fn take_up(&mut self, caller: u32)
        requires caller { IsCaller self.old caller }
        requires waits { IsSome (caller_at self.old caller).awaits }
        requires unclaimed { (k : K) → (caller_at self.old caller).awaits ≡ Some k →
            owner K.cmp self.old k ≡ None }
        ensures { (k : K) → (caller_at self.old caller).awaits ≡ Some k →
            self.new ≡ with_caller self.old caller
            record { chain = (caller_at self.old caller).chain ++ k ∷ []; awaits = None } }
    {
        let claims = &mut self.callers[caller as usize - 1];
        claims.take_up();
    }

    /// Takes the last key of a caller's chain away. It takes no memory.
    pub fn take(&mut self, caller: u32) -> K
        requires caller { IsCaller self.old caller }
        requires some { (caller_at self.old caller).chain ≢ [] }
        ensures last { last (caller_at self.old caller).chain ≡ Some result }
        ensures rest { self.new ≡ with_caller self.old caller record {
          chain = without_last (caller_at self.old caller).chain;
          awaits = (caller_at self.old caller).awaits;
        } }
    {
        self.count -= 1;
        let claims = &mut self.callers[caller as usize - 1];
        claims.take()
    }

    /// Gives back all that a caller has claimed, and its wait. It takes no memory.
    pub fn clear(&mut self, caller: u32)
        requires { IsCaller self.old caller }
        ensures { self.new ≡ with_caller self.old caller idle }
    {
        let claims = &mut self.callers[caller as usize - 1];
        let given_back = claims.count();
        claims.clear();
        self.count -= given_back;
    }

    // The place at which a key is claimed.
    pub(crate) fn place(&self, key: &K) -> Option<Place>
        ensures { MatchOption result (owner K.cmp self.now key.now ≡ None)
            (λ p. IsPlace self.now key.now p × (owner K.cmp self.now key.now ≡ Some (p.caller + 1))
            × (p.caller + 1 < 2 ^ 32)) }
    {
        for (caller, claims) in self.callers.iter().enumerate() {
            if let Some(index) = index_of(claims.chain(), key) {
                return Some(Place { caller, index });
            }
        }
        None
    }

    // The key at a place.
    pub(crate) fn key(&self, place: Place) -> &K
        requires { IsWithin self.now place }
        ensures { IsPlace self.now result.now place }
    {
        &self.callers[place.caller].chain()[place.index]
    }

    // The place of the current need of the key at a place.
    pub(crate) fn next(&self, place: Place) -> Option<Place>
        requires { IsWithin self.now place }
        ensures { GoesOn K.cmp self.now place result }
    {
        let claims = &self.callers[place.caller];
        if place.index < claims.chain().len() - 1 {
            return Some(Place {
                caller: place.caller,
                index: place.index + 1,
            });
        }
        match claims.awaited() {
            None => None,
            Some(key) => self.place(key),
        }
    }
}
