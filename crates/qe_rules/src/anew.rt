//! Frames that work their bodies anew.

ghost use Rattle.std.specs.Prelude.{◌≡◌, ◌+◌, ◌∷◌, ◌++◌, [], length, IfOk, OnOk, OnErr, None};
ghost use Rattle.def_query.specs.Answer.{IsCorrect};
ghost use Rattle.def_query.specs.Lawful.{IsLawful};
ghost use Rattle.def_query.specs.Map.{get};
ghost use Rattle.def_query.specs.Meaning.{Meaning};
ghost use Rattle.qe_rules.specs.Anew.{AreKeysOf, pairs_in};
ghost use Rattle.qe_rules.specs.Frame.{IsResumed, IsRight, IsWorked};
ghost use Rattle.qe_rules.specs.Known.{IsSameMap};
ghost use Rattle.qe_rules.specs.Steps.{after_step};
ghost use Rattle.qe_rules.specs.declared.frame.Stage.TheVariants.{Begun};

use crate::frame::Stage;
use crate::known::Known;
use crate::steps::Steps;
use def_query::Step;
use sl_base::NoMemory;
use std::alloc::Global;
use std::marker::Model;
use std::sync::ledger::Ledger;

/// The bodies of keys, from which `resume_anew` makes frames. Its members are those of `Rules` of these
/// names.
pub trait Bodies {
    type Key: Ord + Drop;

    type Answer: Drop;

    ghost meaning: { Self → Meaning Self.Key Self.Answer };

    fn step<L: Ledger>(
        &self,
        alloc: Global,
        key: &Self::Key,
        known: &Known<Self::Key, Self::Answer>,
        steps: &mut Steps<L>,
    ) -> Result<Step<Self::Key, Self::Answer>, NoMemory>
        requires { IsCorrect Self.Key.cmp (meaning self.now) known.now.pairs }
        ensures body { IfOk result (λ s. s ≡ (meaning self.now).body key.now known.now.pairs) }
        ensures steps { IfOk result (λ s. steps.new ≡ after_step steps.old s) }
        ensures err { OnErr result (steps.new ≡ steps.old) };

    fn copy_key(&self, alloc: Global, key: &Self::Key) -> Result<Self::Key, NoMemory>
        ensures { IfOk result (λ k. k ≡ key.now) };

    fn copy_answer(&self, alloc: Global, answer: &Self::Answer) -> Result<Self::Answer, NoMemory>
        ensures { IfOk result (λ a. a ≡ answer.now) };

    ghost lawful: { (bodies : Self) → IsLawful Self.Key.cmp (meaning bodies) };
}

/// A frame for any bodies. It keeps copies of the answers that its body has used, and works the body anew
/// over these each time that it is resumed.
#[derive(Drop)]
pub struct Anew<K: Ord + Drop, A: Drop> {
    key: K,
    used: Known<K, A>,
    order: Vec<K>,
    stage: Stage,
}

impl<K: Ord + Drop, A: Drop> Model for Anew<K, A> {
    ghost use Rattle.qe_rules.specs.Anew.{AreKeysOf, pairs_in};
    ghost use Rattle.qe_rules.specs.Frame.{Frame};

    ghost Value = { Frame K A };

    ghost view = { λ f. record {
      key = f.key;
      read = pairs_in K.cmp f.used.pairs f.order.items;
      stage = f.stage;
    } };

    ghost invariant = { λ f. AreKeysOf K.cmp f.used.pairs f.order.items };
}

impl<K: Ord + Drop, A: Drop> Anew<K, A> {
    /// A frame of this key that has used nothing. It takes no memory.
    pub fn new(alloc: Global, key: K) -> Anew<K, A>
        ensures begun { result ≡ record { key = key; read = []; stage = Begun } }
        ensures right { (r : Meaning K A) → IsRight K.cmp r result }
    {
        Anew {
            key,
            used: Known::new(alloc),
            order: Vec::new(alloc),
            stage: Stage::Begun,
        }
    }
}

/// Goes on with a frame as `Rules::resume` is to, by `Bodies::step`. In rules whose frames are `Anew`,
/// `is_of` is `IsRight`.
pub fn resume_anew<B: Bodies, L: Ledger>(
    alloc: Global,
    bodies: &B,
    frame: &mut Anew<B::Key, B::Answer>,
    known: &Known<B::Key, B::Answer>,
    steps: &mut Steps<L>,
) -> Result<Step<B::Key, B::Answer>, NoMemory>
    requires right { IsRight B.Key.cmp (B.meaning bodies.now) frame.old }
    requires correct { IsCorrect B.Key.cmp (B.meaning bodies.now) known.now.pairs }
    ensures resumed { IfOk result (λ s. IsResumed B.Key.cmp (B.meaning bodies.now)
        frame.old known.now.pairs s frame.new) }
    ensures right { OnOk result (IsRight B.Key.cmp (B.meaning bodies.now) frame.new) }
    ensures steps { IfOk result (λ s. steps.new ≡ after_step steps.old s) }
    ensures err { OnErr result (steps.new ≡ steps.old) }
{
    let used = &mut frame.used;
    let step = work_anew(
        alloc,
        bodies,
        &frame.key,
        used,
        &mut frame.order,
        known,
        steps,
    )?;
    frame.stage = match &step {
        Step::Needs(_) => Stage::Waiting,
        Step::Done(_) => Stage::Ended,
    };
    Ok(step)
}

// Works the body of a key over the answers that it has used, and uses those of `known` as it needs them.
fn work_anew<B: Bodies, L: Ledger>(
    alloc: Global,
    bodies: &B,
    key: &B::Key,
    used: &mut Known<B::Key, B::Answer>,
    order: &mut Vec<B::Key>,
    known: &Known<B::Key, B::Answer>,
    steps: &mut Steps<L>,
) -> Result<Step<B::Key, B::Answer>, NoMemory>
    requires used { IsCorrect B.Key.cmp (B.meaning bodies.now) used.old.pairs }
    requires keys { AreKeysOf B.Key.cmp used.old.pairs order.old.items }
    requires correct { IsCorrect B.Key.cmp (B.meaning bodies.now) known.now.pairs }
    ensures worked { IfOk result (λ s. IsWorked B.Key.cmp (B.meaning bodies.now) key.now
        known.now.pairs (pairs_in B.Key.cmp used.old.pairs order.old.items) s
        (pairs_in B.Key.cmp used.new.pairs order.new.items)) }
    ensures used { OnOk result (IsCorrect B.Key.cmp (B.meaning bodies.now) used.new.pairs) }
    ensures keys { AreKeysOf B.Key.cmp used.new.pairs order.new.items }
    ensures steps { IfOk result (λ s. steps.new ≡ after_step steps.old s) }
    ensures err { OnErr result (steps.new ≡ steps.old) }
{
    loop {
        let need = match bodies.step(alloc, key, used, steps)? {
            Step::Done(answer) => return Ok(Step::Done(answer)),
            Step::Needs(need) => need,
        };
        match known.get(&need) {
            None => return Ok(Step::Needs(need)),
            Some(answer) => use_answer(alloc, bodies, used, order, need, answer)?,
        }
    }
}

// Uses an answer.
fn use_answer<B: Bodies>(
    alloc: Global,
    bodies: &B,
    used: &mut Known<B::Key, B::Answer>,
    order: &mut Vec<B::Key>,
    need: B::Key,
    answer: &B::Answer,
) -> Result<(), NoMemory>
    requires { get B.Key.cmp used.old.pairs need ≡ None }
    ensures used { OnOk result (IsSameMap B.Key.cmp used.new.pairs
        ((need, answer.now) ∷ used.old.pairs)) }
    ensures one { OnOk result (length used.new.pairs ≡ length used.old.pairs + 1) }
    ensures order { OnOk result (order.new.items ≡ order.old.items ++ need ∷ []) }
    ensures err { OnErr result ((used.new.pairs ≡ used.old.pairs) × (order.new.items ≡ order.old.items)) }
{
    let answer = bodies.copy_answer(alloc, answer)?;
    let key = bodies.copy_key(alloc, &need)?;
    used.reserve()?;
    order.push(key)?;
    let _put = used.put(need, answer);
    Ok(())
}
