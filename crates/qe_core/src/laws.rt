//! Laws on many callers: what holds of every legal history of events, for all rules.

ghost use Rattle.def_core.specs.Laws.{PublishedRight, WaitsLeadDown, WorkedOnce, AskedUnder, UnmovedByOthers};

use qe_rules::Rules;

/// In every legal history each published pair is of a key and its answer, and each cycle that an Ask came
/// to is that of its key.
pub fn published_right<R: Rules>()
    ensures { (rules : R) → PublishedRight R.Key.cmp (R.meaning rules) }
{}

/// In every state of a legal history current needs are what keys depend on, the claimed keys are distinct
/// and unpublished, following current needs never comes back to a key, and where some chain is not empty or
/// some caller waits, one of these callers has a legal Ask, a legal Publish, or a legal Look.
pub fn waits_lead_down<R: Rules>()
    ensures { (rules : R) → WaitsLeadDown R.Key.cmp (R.meaning rules) }
{}

/// No key is published twice, and none outside the closure of the keys asked on an empty chain; as many keys
/// are published as there are Publishes; where no work is left and the keys asked on an empty chain are
/// published, the whole closure is. Without Abandons a history is bounded by the closure, and where no work
/// is left each key asked on an empty chain is published.
pub fn worked_once<R: Rules>()
    ensures { (rules : R) → WorkedOnce R.Key.cmp (R.meaning rules) }
{}

/// Each key that a caller asked lies in the closure of the keys asked on an empty chain. Where no work is left
/// it is published, if those are or nobody abandoned.
pub fn asked_under<R: Rules>()
    ensures { (rules : R) → AskedUnder R.Key.cmp (R.meaning rules) }
{}

/// What is legal for a caller, and is no Look, stays legal whatever others do meanwhile; and its chain and
/// what it waits for stay the same.
pub fn unmoved_by_others<R: Rules>()
    ensures { (rules : R) → UnmovedByOthers R.Key.cmp (R.meaning rules) }
{}
