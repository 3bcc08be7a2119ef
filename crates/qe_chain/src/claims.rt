//! What one caller has claimed, and what it waits for.

ghost use Rattle.std.specs.Prelude.{◌≡◌, ◌≢◌, ◌+◌, ◌^◌, ◌<◌, ◌++◌, [], ◌∷◌, length, OnOk, OnErr, MatchOption, None, Some, IsSome};
ghost use Rattle.def_core.specs.State.{idle, last, without_last};
ghost use Rattle.qe_chain.specs.Chains.{awaited_count};

use sl_base::NoMemory;
use std::alloc::Global;
use std::marker::Model;

/// The keys that a caller has claimed, the first claimed first, and the key that it waits for. While it
/// waits, the chain has room for that key.
#[derive(Drop)]
pub(crate) struct Claims<K: Drop> {
    chain: Vec<K>,
    awaits: Option<K>,
}

impl<K: Drop> Model for Claims<K> {
    ghost use Rattle.std.specs.Prelude.{◌<◌, vec_len, vec_capacity, IsSome};
    ghost use Rattle.def_core.specs.State.{Caller};

    ghost Value = { Caller K };

    ghost view = { λ c. record { chain = c.chain.items; awaits = c.awaits } };

    ghost invariant = { λ c. IsSome c.awaits → vec_len c.chain < vec_capacity c.chain };
}

impl<K: Drop> Claims<K> {
    // No claims. It takes no memory.
    pub(crate) fn new(alloc: Global) -> Claims<K>
        ensures { result ≡ idle }
    {
        Claims {
            chain: Vec::new(alloc),
            awaits: None,
        }
    }

    // The claimed keys.
    pub(crate) fn chain(&self) -> &[K]
        ensures { result.now ≡ self.now.chain }
    {
        self.chain.as_slice()
    }

    // The key that is waited for.
    pub(crate) fn awaited(&self) -> Option<&K>
        ensures { MatchOption result (self.now.awaits ≡ None) (λ k. self.now.awaits ≡ Some k.now) }
    {
        self.awaits.as_ref()
    }

    // How many keys are claimed, and one more where a key is waited for.
    pub(crate) fn count(&self) -> usize
        requires { length self.now.chain + awaited_count self.now.awaits < 2 ^ 64 }
        ensures { result ≡ length self.now.chain + awaited_count self.now.awaits }
    {
        match &self.awaits {
            None => self.chain.len(),
            Some(_) => self.chain.len() + 1,
        }
    }

    // Puts a key behind the others.
    pub(crate) fn claim(&mut self, key: K) -> Result<(), NoMemory>
        requires { self.old.awaits ≡ None }
        ensures ok { OnOk result
            (self.new ≡ record { chain = self.old.chain ++ key ∷ []; awaits = None }) }
        ensures err { OnErr result (self.new ≡ self.old) }
    {
        self.chain.push(key)?;
        Ok(())
    }

    // Begins to wait, and makes room for the key.
    pub(crate) fn wait(&mut self, key: K) -> Result<(), NoMemory>
        ensures ok { OnOk result
            (self.new ≡ record { chain = self.old.chain; awaits = Some key }) }
        ensures err { OnErr result (self.new ≡ self.old) }
    {
        self.chain.reserve(1)?;
        self.awaits = Some(key);
        Ok(())
    }

    // Waits no longer.
    pub(crate) fn stop(&mut self)
        ensures { self.new ≡ record { chain = self.old.chain; awaits = None } }
    {
        self.awaits = None;
    }

    // Waits no longer, and puts the key behind the others.
    pub(crate) fn take_up(&mut self)
        requires { IsSome self.old.awaits }
        ensures { (k : K) → self.old.awaits ≡ Some k →
            self.new ≡ record { chain = self.old.chain ++ k ∷ []; awaits = None } }
    {
        match self.awaits.take() {
            None => unreachable!(),
            Some(key) => self.chain.push_reserved(key),
        }
    }

    // Takes the last key away.
    pub(crate) fn take(&mut self) -> K
        requires { self.old.chain ≢ [] }
        ensures last { last self.old.chain ≡ Some result }
        ensures rest { self.new ≡
            record { chain = without_last self.old.chain; awaits = self.old.awaits } }
    {
        match self.chain.pop() {
            None => unreachable!(),
            Some(key) => key,
        }
    }

    // Gives back everything.
    pub(crate) fn clear(&mut self)
        ensures { self.new ≡ idle }
    {
        self.awaits = None;
        self.chain.clear();
    }
}
