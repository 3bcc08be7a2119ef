//! What rules are.

ghost use Rattle.std.specs.Prelude.{◌≡◌, [], IfOk, OnErr, OnOk};
ghost use Rattle.def_query.specs.Answer.{IsCorrect};
ghost use Rattle.def_query.specs.Lawful.{IsLawful};
ghost use Rattle.def_query.specs.Meaning.{Meaning};
ghost use Rattle.qe_rules.specs.Frame.{Frame, CanResume, IsResumed, IsRight};
ghost use Rattle.qe_rules.specs.Steps.{after_step};
ghost use Rattle.qe_rules.specs.declared.frame.Stage.TheVariants.{Begun};

use crate::cycle::Cycle;
use crate::known::Known;
use crate::steps::Steps;
use def_query::Step;
use sl_base::NoMemory;
use std::alloc::Global;
use std::sync::ledger::Ledger;

/// Rules say how each key is answered from the answers of other keys.
pub trait Rules {
    type Key: Ord + Drop;

    type Answer: Drop;

    /// How far the body of a key is worked out, so that an answer that it needs does not begin it anew.
    type Frame: Drop;

    /// The bodies of keys, the answers that tell cycles, and a bound on what each key needs.
    ghost meaning: { Self → Meaning Self.Key Self.Answer };

    /// The key of a frame, the answers that it has used, and how far it has come.
    ghost stands_for: { Self.Frame → Frame Self.Key Self.Answer };

    /// The frame is one of these rules.
    ghost is_of: { Self → Self.Frame → Type 0 };

    /// Works out the body of a key. `Needs` names the first key that it uses and `known` lacks;
    /// `Done` adds one step.
    fn step<L: Ledger>(
        &self,
        alloc: Global,
        key: &Self::Key,
        known: &Known<Self::Key, Self::Answer>,
        steps: &mut Steps<L>,
    ) -> Result<Step<Self::Key, Self::Answer>, NoMemory>
        requires { IsCorrect Self.Key.cmp (meaning self.now) known.now.pairs }
        ensures body { IfOk result (λ s. s ≡ (meaning self.now).body key.now known.now.pairs) }
        ensures steps { IfOk result (λ s. steps.new ≡ after_step steps.old s) }
        ensures err { OnErr result (steps.new ≡ steps.old) };

    /// Begins the body of a key, which has used no answer yet.
    fn begin(&self, alloc: Global, key: &Self::Key) -> Result<Self::Frame, NoMemory>
        ensures begun { IfOk result (λ f.
            stands_for f ≡ record { key = key.now; read = []; stage = Begun }) }
        ensures of { IfOk result (λ f. is_of self.now f) };

    /// Goes on with the body of a key: what `step` gives where the answers of `known` and those that the
    /// frame has used are known. `known` has the key that the frame needed when it was resumed last, and
    /// the frame has not given its answer. `Done` adds one step. After `NoMemory` the frame is given up.
    fn resume<L: Ledger>(
        &self,
        alloc: Global,
        frame: &mut Self::Frame,
        known: &Known<Self::Key, Self::Answer>,
        steps: &mut Steps<L>,
    ) -> Result<Step<Self::Key, Self::Answer>, NoMemory>
        requires of { is_of self.now frame.old }
        requires correct { IsCorrect Self.Key.cmp (meaning self.now) known.now.pairs }
        requires can { CanResume Self.Key.cmp (meaning self.now)
            (stands_for frame.old) known.now.pairs }
        ensures resumed { IfOk result (λ s. IsResumed Self.Key.cmp (meaning self.now)
            (stands_for frame.old) known.now.pairs s (stands_for frame.new)) }
        ensures of { OnOk result (is_of self.now frame.new) }
        ensures steps { IfOk result (λ s. steps.new ≡ after_step steps.old s) }
        ensures err { OnErr result (steps.new ≡ steps.old) };

    /// The answer that tells a cycle.
    fn circular(&self, alloc: Global, cycle: &Cycle<Self::Key>) -> Result<Self::Answer, NoMemory>
        ensures { IfOk result (λ a. a ≡ (meaning self.now).circular cycle.now) };

    /// A copy of a key.
    fn copy_key(&self, alloc: Global, key: &Self::Key) -> Result<Self::Key, NoMemory>
        ensures { IfOk result (λ k. k ≡ key.now) };

    /// A copy of an answer.
    fn copy_answer(&self, alloc: Global, answer: &Self::Answer) -> Result<Self::Answer, NoMemory>
        ensures { IfOk result (λ a. a ≡ answer.now) };

    /// What is asked of rules.
    ghost lawful: { (rules : Self) → IsLawful Self.Key.cmp (meaning rules) };

    /// What a frame of these rules has used is right.
    ghost right: { (rules : Self) (frame : Self.Frame) → is_of rules frame →
        IsRight Self.Key.cmp (meaning rules) (stands_for frame) };
}
