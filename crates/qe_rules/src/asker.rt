//! Who answers keys, whatever the way.

ghost use Rattle.std.specs.Prelude.{◌≡◌, ◌+◌, ◌++◌, [], ◌∷◌, ℕ, List, IfOk, OnOk};
ghost use Rattle.def_query.specs.Answer.{Answers};
ghost use Rattle.def_query.specs.Keys.{IsIn};

use crate::rules::Rules;
use crate::steps::Steps;
use sl_base::NoMemory;
use std::alloc::Global;
use std::sync::ledger::Ledger;

/// An asker answers keys of the rules over which it was made.
pub trait Asker<R: Rules> {
    /// The rules. No call changes them.
    ghost subject: { Self → R };

    /// The keys whose answers it has.
    ghost has: { Self → R.Key → Type 0 };

    /// How many steps it has counted.
    ghost worked: { Self → ℕ };

    /// Whether all its work lies in what these keys depend on, in any number of steps.
    ghost keeps_to: { Self → List R.Key → Type 0 };

    /// Answers a key.
    fn ask<L: Ledger>(
        &mut self,
        alloc: Global,
        key: &R::Key,
        steps: &mut Steps<L>,
    ) -> Result<R::Answer, NoMemory>
        ensures answer { IfOk result (Answers R.Key.cmp (R.meaning (subject self.old)) key.now) }
        ensures subject { subject self.new ≡ subject self.old }
        ensures has { OnOk result (has self.new key.now) }
        ensures kept { OnOk result ((k : R.Key) → has self.old k → has self.new k) }
        ensures steps { steps.new + worked self.old ≡ steps.old + worked self.new }
        ensures within { (keys : List R.Key) →
            keeps_to self.old keys → keeps_to self.new (keys ++ key.now ∷ []) };

    /// Work that lies within some keys lies within every list that has all of them.
    ghost wider: { (asker : Self) (xs ys : List R.Key) →
        ((k : R.Key) → IsIn k xs → IsIn k ys) → keeps_to asker xs → keeps_to asker ys };
}
