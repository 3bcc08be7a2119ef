//! A worker on one thread.

ghost use Rattle.std.specs.Prelude.{◌≡◌, ◌+◌, ◌<◌, length, map, IfOk, OnOk, OnErr, None, Some};
ghost use Rattle.std.specs.List.{AllByRecursion};
ghost use Rattle.def_query.specs.Answer.{Answers, IsCorrect};
ghost use Rattle.def_query.specs.Map.{get, IsWithin};
ghost use Rattle.qe_rules.specs.Frame.{IsStack};
ghost use Rattle.qe_rules.specs.Worker.{Advances, GainsWithin, IsChain, IsClosed, IsKnown};

use crate::chain::{Chain, place_of, settle, told};
use crate::known::Known;
use crate::rules::Rules;
use crate::steps::Steps;
use def_query::Step;
use sl_base::NoMemory;
use std::alloc::Global;
use std::sync::ledger::Ledger;

/// Answers a key, with all that it needs. It keeps the keys that it works on on the heap, and adds to
/// `known` each key that it works out. After `NoMemory` these stay known.
pub fn alone<R: Rules, L: Ledger>(
    alloc: Global,
    rules: &R,
    known: &mut Known<R::Key, R::Answer>,
    key: &R::Key,
    steps: &mut Steps<L>,
) -> Result<R::Answer, NoMemory>
    requires { IsCorrect R.Key.cmp (R.meaning rules.now) known.old.pairs }
    ensures answer { IfOk result (Answers R.Key.cmp (R.meaning rules.now) key.now) }
    ensures correct { IsCorrect R.Key.cmp (R.meaning rules.now) known.new.pairs }
    ensures kept { IsWithin R.Key.cmp known.old.pairs known.new.pairs }
    ensures within { GainsWithin R.Key.cmp (R.meaning rules.now) key.now
        known.old.pairs known.new.pairs }
    ensures steps { steps.new + length known.old.pairs ≡ steps.old + length known.new.pairs }
    ensures known { OnOk result (IsKnown R.Key.cmp (R.meaning rules.now) known.new.pairs key.now) }
    ensures closed { OnOk result (IsClosed R.Key.cmp (R.meaning rules.now) known.old.pairs →
        IsClosed R.Key.cmp (R.meaning rules.now) known.new.pairs) }
{
    match known.get(key) {
        Some(answer) => rules.copy_answer(alloc, answer),
        None => {
            work(alloc, rules, known, key, steps)?;
            copy_known(alloc, rules, known, key)
        }
    }
}

// A copy of the answer of a key that is known.
fn copy_known<R: Rules>(
    alloc: Global,
    rules: &R,
    known: &Known<R::Key, R::Answer>,
    key: &R::Key,
) -> Result<R::Answer, NoMemory>
    requires { IsKnown R.Key.cmp (R.meaning rules.now) known.now.pairs key.now }
    ensures { IfOk result (λ a. get R.Key.cmp known.now.pairs key.now ≡ Some a) }
{
    match known.get(key) {
        Some(answer) => rules.copy_answer(alloc, answer),
        None => unreachable!(),
    }
}

// Works until the key is known.
fn work<R: Rules, L: Ledger>(
    alloc: Global,
    rules: &R,
    known: &mut Known<R::Key, R::Answer>,
    key: &R::Key,
    steps: &mut Steps<L>,
) -> Result<(), NoMemory>
    requires correct { IsCorrect R.Key.cmp (R.meaning rules.now) known.old.pairs }
    requires unknown { get R.Key.cmp known.old.pairs key.now ≡ None }
    ensures correct { IsCorrect R.Key.cmp (R.meaning rules.now) known.new.pairs }
    ensures kept { IsWithin R.Key.cmp known.old.pairs known.new.pairs }
    ensures within { GainsWithin R.Key.cmp (R.meaning rules.now) key.now
        known.old.pairs known.new.pairs }
    ensures steps { steps.new + length known.old.pairs ≡ steps.old + length known.new.pairs }
    ensures known { OnOk result (IsKnown R.Key.cmp (R.meaning rules.now) known.new.pairs key.now) }
    ensures closed { OnOk result (IsClosed R.Key.cmp (R.meaning rules.now) known.old.pairs →
        IsClosed R.Key.cmp (R.meaning rules.now) known.new.pairs) }
{
    let mut chain = Chain::new(alloc);
    chain.begin(alloc, rules, rules.copy_key(alloc, key)?)?;
    'chain: while !chain.keys.is_empty() {
        advance(alloc, rules, known, &mut chain, steps)?;
    }
    Ok(())
}

// Goes on with the last key of the chain.
fn advance<R: Rules, L: Ledger>(
    alloc: Global,
    rules: &R,
    known: &mut Known<R::Key, R::Answer>,
    chain: &mut Chain<R>,
    steps: &mut Steps<L>,
) -> Result<(), NoMemory>
    requires correct { IsCorrect R.Key.cmp (R.meaning rules.now) known.old.pairs }
    requires chained { IsChain R.Key.cmp (R.meaning rules.now) known.old.pairs
        chain.old.keys.items }
    requires of { AllByRecursion (R.is_of rules.now) chain.old.frames.items }
    requires stack { IsStack R.Key.cmp (R.meaning rules.now) known.old.pairs
        (map R.stands_for chain.old.frames.items) chain.old.keys.items }
    requires some { 0 < length chain.old.keys.items }
    ensures ok { OnOk result (Advances R.Key.cmp (R.meaning rules.now)
        known.old.pairs chain.old.keys.items known.new.pairs chain.new.keys.items
        × IsStack R.Key.cmp (R.meaning rules.now) known.new.pairs
        (map R.stands_for chain.new.frames.items) chain.new.keys.items) }
    ensures of { OnOk result (AllByRecursion (R.is_of rules.now) chain.new.frames.items) }
    ensures err { OnErr result (known.new.pairs ≡ known.old.pairs) }
    ensures steps { steps.new + length known.old.pairs ≡ steps.old + length known.new.pairs }
{
    known.reserve()?;
    match chain.frames.pop() {
        None => unreachable!(),
        Some(mut frame) => match rules.resume(alloc, &mut frame, known, steps)? {
            Step::Done(answer) => {
                settle(known, &mut chain.keys, answer);
                Ok(())
            }
            Step::Needs(need) => match place_of(&chain.keys, &need) {
                None => Ok(chain.go_down(alloc, rules, frame, need)?),
                Some(at) => {
                    let answer = told(rules, alloc, &chain.keys[at..])?;
                    steps.tick();
                    settle(known, &mut chain.keys, answer);
                    Ok(())
                }
            },
        },
    }
}
