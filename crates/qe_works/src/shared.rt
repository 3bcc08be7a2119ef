//! What lies behind the lock.

use def_session::Subject;
use qe_core::Event;
use qe_rules::Rules;
use qe_table::Table;
use sl_turn::StandsFor;
use std::snapshot::Snapshot;

/// The table, with the rules of its session as contracts see them.
#[derive(Drop)]
pub struct Shared<R: Rules> {
    pub table: Table<R>,
    pub rules: Snapshot<R>,
}

impl<R: Rules> StandsFor for Shared<R> {
    type Subject = Subject<R>;

    type Entry = Event<R::Key, R::Answer>;

    ghost use Rattle.def_core.specs.Replay.{caller_of};
    ghost use Rattle.def_core.specs.Legal.{Legal};

    ghost subject = { λ s. record { rules = s.rules.value; callers = s.table.callers } };

    ghost history = { λ s. s.table.history };

    ghost caller = { caller_of };

    ghost legal = { λ s h. Legal R.Key.cmp (R.meaning s.rules) s.callers h };
}
