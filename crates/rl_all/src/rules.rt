//! The rules of all keys.

ghost use Rattle.std.specs.Prelude.{◌≡◌, ◌≤◌, IfOk, IfSome, IsNone, None, Some, length};
ghost use Rattle.std.specs.List.{All};
ghost use Rattle.def_check.proofs.Lawful.{bodies_lawful};
ghost use Rattle.def_check.specs.Body.{body_of, meaning_of};
ghost use Rattle.def_sources.specs.Limits.{most_bytes};
ghost use Rattle.qe_rules.specs.Frame.{IsRight};
ghost use Rattle.sl_io.specs.Root.{bytes_of};
ghost use Rattle.sl_key.specs.Order.{key_cmp};
ghost use Rattle.sl_roots.specs.Load.{sources_of};

use crate::imports::imports;
use qe_rules::{Anew, Bodies, Cycle, Rules, Step, Steps, resume_anew};
use rl_sig::{alias, constant};
use sl_base::{Name, NoMemory};
use sl_key::{Answer, Facts, Key, Kind};
use sl_roots::SourceSet;
use std::alloc::Global;
use std::marker::Model;
use std::sync::ledger::Ledger;

/// The rules of all keys over sources, which contracts see as the sources. Each of their modules is
/// within the limit on bytes.
#[derive(Debug, Drop)]
pub struct SlangRules {
    sources: SourceSet,
}

impl Model for SlangRules {
    ghost use Rattle.std.specs.Prelude.{◌≤◌, length};
    ghost use Rattle.std.specs.List.{All};
    ghost use Rattle.def_sources.specs.Limits.{most_bytes};
    ghost use Rattle.def_sources.specs.Sources.{Sources};
    ghost use Rattle.sl_roots.specs.Load.{sources_of};

    ghost Value = { Sources };

    ghost view = { λ rules. sources_of rules.sources };

    ghost invariant = { λ rules.
        All (λ file. length file.1 ≤ most_bytes) rules.sources.modules };
}

impl SlangRules {
    /// The rules over these sources.
    pub fn new(sources: SourceSet) -> SlangRules
        requires { All (λ file. length file.1 ≤ most_bytes) sources.modules }
        ensures { result ≡ sources_of sources }
    {
        SlangRules { sources }
    }

    /// The bytes of a module, if the sources have it.
    pub(crate) fn bytes_of(&self, name: &Name) -> Option<&[u8]>
        ensures some { IfSome result (λ bytes. (bytes_of self.now.modules name.now ≡ Some bytes.now)
            × (length bytes.now ≤ most_bytes)) }
        ensures none { IsNone result → bytes_of self.now.modules name.now ≡ None }
    {
        self.sources.bytes_of(name)
    }

    // The body of a key: one arm for each kind.
    fn body(&self, alloc: Global, key: &Key, known: &Facts) -> Result<Step<Key, Answer>, NoMemory>
        ensures { IfOk result (λ step. step ≡ body_of self.now key.now known.now.pairs) }
    {
        match key.kind {
            Kind::Syntax => Ok(Step::Done(self.syntax(alloc, &key.path.module)?)),
            Kind::Imports => imports(alloc, known, &key.path.module),
            Kind::Alias => alias(alloc, known, &key.path),
            Kind::Const => constant(alloc, known, &key.path),
        }
    }
}

impl Bodies for SlangRules {
    type Key = Key;

    type Answer = Answer;

    ghost meaning = { λ rules. meaning_of rules };

    fn step<L: Ledger>(
        &self,
        alloc: Global,
        key: &Key,
        known: &Facts,
        steps: &mut Steps<L>,
    ) -> Result<Step<Key, Answer>, NoMemory> {
        let step = self.body(alloc, key, known)?;
        if let Step::Done(_) = &step {
            steps.tick();
        }
        Ok(step)
    }

    fn copy_key(&self, alloc: Global, key: &Key) -> Result<Key, NoMemory> {
        key.copy(alloc)
    }

    fn copy_answer(&self, alloc: Global, answer: &Answer) -> Result<Answer, NoMemory> {
        answer.copy(alloc)
    }

    ghost lawful = { λ rules. bodies_lawful rules };
}

impl Rules for SlangRules {
    type Key = Key;

    type Answer = Answer;

    type Frame = Anew<Key, Answer>;

    ghost meaning = { λ rules. meaning_of rules };

    ghost stands_for = { λ frame. frame };

    ghost is_of = { λ rules frame. IsRight key_cmp (meaning_of rules) frame };

    fn step<L: Ledger>(
        &self,
        alloc: Global,
        key: &Key,
        known: &Facts,
        steps: &mut Steps<L>,
    ) -> Result<Step<Key, Answer>, NoMemory> {
        Bodies::step(self, alloc, key, known, steps)
    }

    fn begin(&self, alloc: Global, key: &Key) -> Result<Anew<Key, Answer>, NoMemory> {
        Ok(Anew::new(alloc, key.copy(alloc)?))
    }

    fn resume<L: Ledger>(
        &self,
        alloc: Global,
        frame: &mut Anew<Key, Answer>,
        known: &Facts,
        steps: &mut Steps<L>,
    ) -> Result<Step<Key, Answer>, NoMemory> {
        resume_anew(alloc, self, frame, known, steps)
    }

    fn circular(&self, alloc: Global, cycle: &Cycle<Key>) -> Result<Answer, NoMemory> {
        Answer::circular(alloc, cycle)
    }

    fn copy_key(&self, alloc: Global, key: &Key) -> Result<Key, NoMemory> {
        key.copy(alloc)
    }

    fn copy_answer(&self, alloc: Global, answer: &Answer) -> Result<Answer, NoMemory> {
        answer.copy(alloc)
    }

    ghost lawful = { λ rules. bodies_lawful rules };

    ghost right = { λ rules frame of. of };
}
