//! An asker on one thread.

ghost use Rattle.std.specs.Prelude.{◌≡◌, ◌+◌, ◌++◌, [], ◌∷◌, List, length, IsTrue, IsErr, IfOk, OnOk, OnErr, false};
ghost use Rattle.def_query.specs.Answer.{Answers};
ghost use Rattle.qe_rules.specs.Asker.{HasClosure, LiesWithin};
ghost use Rattle.qe_rules.specs.Known.{HasRisingKeys};

use crate::asker::Asker;
use crate::known::Known;
use crate::rules::Rules;
use crate::steps::Steps;
use crate::worker::alone;
use sl_base::NoMemory;
use std::alloc::Global;
use std::marker::Model;
use std::sync::ledger::Ledger;

/// An asker that works alone and keeps all that it worked out. Once memory ran out, it answers
/// `NoMemory` to every later call.
#[derive(Drop)]
pub struct AloneAsker<'a, R: Rules> {
    rules: &'a R,
    known: Known<R::Key, R::Answer>,
    failed: bool,
}

impl<'a, R: Rules> Model for AloneAsker<'a, R> {
    ghost use Rattle.qe_rules.specs.Asker.{AskerState, IsSound};

    ghost Value = { AskerState R R.Key R.Answer };

    ghost view = { λ a. record {
      rules = a.rules.now;
      pairs = a.known.pairs;
      failed = a.failed;
    } };

    ghost invariant = { λ a. IsSound R.Key.cmp (R.meaning a.rules.now) a.known.pairs a.failed };
}

impl<'a, R: Rules> AloneAsker<'a, R> {
    /// An asker of these rules that has no answers yet.
    pub fn new(alloc: Global, rules: &'a R) -> AloneAsker<'a, R>
        ensures { result ≡ record { rules = rules.now; pairs = []; failed = false } }
    {
        AloneAsker {
            rules,
            known: Known::new(alloc),
            failed: false,
        }
    }

    /// How many keys it worked out, each once.
    pub fn worked(&self) -> usize
        ensures count { result ≡ length self.now.pairs }
        ensures distinct { HasRisingKeys R.Key.cmp self.now.pairs }
    {
        self.known.len()
    }
}

impl<'a, R: Rules> Asker<R> for AloneAsker<'a, R> {
    ghost subject = { λ a. a.rules };

    ghost has = { λ a k. HasClosure R.Key.cmp (R.meaning a.rules) a.pairs k };

    ghost worked = { λ a. length a.pairs };

    ghost keeps_to = { λ a keys. LiesWithin R.Key.cmp (R.meaning a.rules) a.pairs keys };

    fn ask<L: Ledger>(
        &mut self,
        alloc: Global,
        key: &R::Key,
        steps: &mut Steps<L>,
    ) -> Result<R::Answer, NoMemory>
        ensures answer { IfOk result (Answers R.Key.cmp (R.meaning self.old.rules) key.now) }
        ensures subject { self.new.rules ≡ self.old.rules }
        ensures has { OnOk result
            (HasClosure R.Key.cmp (R.meaning self.new.rules) self.new.pairs key.now) }
        ensures kept { OnOk result ((k : R.Key) →
            HasClosure R.Key.cmp (R.meaning self.old.rules) self.old.pairs k →
            HasClosure R.Key.cmp (R.meaning self.new.rules) self.new.pairs k) }
        ensures steps { steps.new + length self.old.pairs ≡ steps.old + length self.new.pairs }
        ensures within { (keys : List R.Key) →
            LiesWithin R.Key.cmp (R.meaning self.old.rules) self.old.pairs keys →
            LiesWithin R.Key.cmp (R.meaning self.new.rules) self.new.pairs (keys ++ key.now ∷ []) }
        ensures failed { IsTrue self.old.failed → IsErr result }
        ensures fails { OnErr result (IsTrue self.new.failed) }
    {
        if self.failed {
            return Err(NoMemory);
        }
        match alone(alloc, self.rules, &mut self.known, key, steps) {
            Ok(answer) => Ok(answer),
            Err(error) => {
                self.failed = true;
                Err(error)
            }
        }
    }

    ghost wider = { λ asker xs ys more lies k known.
        let found = lies k known in (found.0, more found.0 found.1, found.2) };
}
