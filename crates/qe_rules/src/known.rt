//! The answers that are known.

ghost use Rattle.std.specs.Prelude.{◌≡◌, ◌+◌, ◌<◌, ◌≤◌, ℕ, [], ◌∷◌, length, IsOk, IfOk, IfErr, OnOk, OnErr, MatchOption, None, Some};
ghost use Rattle.def_query.specs.Map.{get};
ghost use Rattle.qe_rules.specs.Known.{HasRisingKeys, IsSameMap, IsAt, IsGapFor};

use sl_base::NoMemory;
use std::alloc::Global;
use std::marker::Model;

/// A finite map from keys to answers, which contracts see as a list of pairs with distinct keys beside
/// `spare`, the number of pairs for which there is room.
///
/// The pairs are kept in the order of their keys. `get` and `put` compare keys about as often as the
/// number of pairs has binary digits, and `put` moves the pairs behind its own.
#[derive(Drop)]
pub struct Known<K: Ord + Drop, A: Drop> {
    pairs: Vec<(K, A)>,
}

impl<K: Ord + Drop, A: Drop> Model for Known<K, A> {
    ghost use Rattle.std.specs.Prelude.{◌-◌, vec_len, vec_capacity};
    ghost use Rattle.qe_rules.specs.Known.{Pairs, HasRisingKeys};

    ghost Value = { Pairs K A };

    ghost view = { λ k. record {
      pairs = k.pairs.items;
      spare = vec_capacity k.pairs - vec_len k.pairs;
    } };

    ghost invariant = { λ k. HasRisingKeys K.cmp k.pairs.items };
}

impl<K: Ord + Drop, A: Drop> Known<K, A> {
    /// No pairs. It takes no memory.
    pub fn new(alloc: Global) -> Known<K, A>
        ensures { result.pairs ≡ [] }
    {
        Known {
            pairs: Vec::new(alloc),
        }
    }

    /// The answer of a key.
    pub fn get(&self, key: &K) -> Option<&A>
        ensures answer { MatchOption result (get K.cmp self.now.pairs key.now ≡ None)
            (λ a. get K.cmp self.now.pairs key.now ≡ Some a.now) }
        ensures distinct { HasRisingKeys K.cmp self.now.pairs }
    {
        match self.search(key) {
            Ok(at) => Some(&self.pairs[at].1),
            Err(_) => None,
        }
    }

    /// How many pairs there are.
    pub fn len(&self) -> usize
        ensures count { result ≡ length self.now.pairs }
        ensures distinct { HasRisingKeys K.cmp self.now.pairs }
    {
        self.pairs.len()
    }

    /// Makes room for a pair.
    pub fn reserve(&mut self) -> Result<(), NoMemory>
        ensures pairs { self.new.pairs ≡ self.old.pairs }
        ensures room { OnOk result (0 < self.new.spare) }
    {
        self.pairs.reserve(1)?;
        Ok(())
    }

    /// Makes room for so many pairs. After `NoMemory` there is as much room as before.
    pub fn reserve_for(&mut self, count: usize) -> Result<(), NoMemory>
        ensures pairs { self.new.pairs ≡ self.old.pairs }
        ensures room { OnOk result (count ≤ self.new.spare) }
        ensures err { OnErr result (self.new.spare ≡ self.old.spare) }
    {
        self.pairs.reserve(count)?;
        Ok(())
    }

    /// Adds a pair whose key the map lacks. After `NoMemory` the pair is dropped.
    pub fn put(&mut self, key: K, answer: A) -> Result<(), NoMemory>
        requires { get K.cmp self.old.pairs key ≡ None }
        ensures gains { OnOk result
            (IsSameMap K.cmp self.new.pairs ((key, answer) ∷ self.old.pairs)) }
        ensures one { OnOk result (length self.new.pairs ≡ length self.old.pairs + 1) }
        ensures err { OnErr result (self.new.pairs ≡ self.old.pairs) }
        ensures room { OnOk result (self.old.spare ≤ self.new.spare + 1) }
        ensures succeeds { 0 < self.old.spare → IsOk result }
    {
        match self.search(&key) {
            Ok(_) => unreachable!(),
            Err(at) => Ok(self.pairs.insert(at, (key, answer))?),
        }
    }

    // Where the key is, or where it would go.
    fn search(&self, key: &K) -> Result<usize, usize>
        ensures found { IfOk result (IsAt K.cmp self.now.pairs key.now) }
        ensures absent { IfErr result (IsGapFor K.cmp self.now.pairs key.now) }
    {
        self.pairs.binary_search_by(|pair| pair.0.cmp(key))
    }
}
