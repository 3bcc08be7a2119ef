//! What is done in one turn: one event of the table, or a look that changes nothing.

ghost use Rattle.std.specs.Prelude.{◌≡◌, IfOk, MatchOption, None, Some};
ghost use Rattle.def_query.specs.Map.{get};
ghost use Rattle.qe_table.specs.Table.{state};

use crate::shared::Shared;
use qe_core::{Event, Outcome};
use qe_rules::Rules;
use qe_table::Table;
use sl_base::NoMemory;
use sl_turn::{Turned, Work};
use std::alloc::Global;

/// What an Ask or a Look came to, with a copy of the key's answer where it is published.
#[derive(Drop)]
pub struct Reply<R: Rules> {
    pub outcome: Outcome<R::Key>,
    pub answer: Option<R::Answer>,
}

/// An Ask. Without memory it is no event.
#[derive(Drop)]
pub struct Asks<'a, R: Rules> {
    pub alloc: Global,
    pub rules: &'a R,
    pub caller: u32,
    pub key: &'a R::Key,
}

impl<R: Rules> Work<Shared<R>> for Asks<'_, R> {
    type Out = Result<Reply<R>, NoMemory>;

    ghost use Rattle.std.specs.Prelude.{◌≡◌, IfOk, IsErr, IsOk};
    ghost use Rattle.def_core.specs.declared.event.Event.TheVariants.{Ask};
    ghost use Rattle.def_core.specs.Replay.{Fits, replay};
    ghost use Rattle.qe_works.specs.Works.{IsReply};
    ghost use Rattle.sl_turn.specs.Once.{IfEntered, IfUnchanged};

    ghost entry = { λ w. Ask w.caller w.key.now };

    ghost fits = { λ w s h. Fits R.Key.cmp (replay R.Key.cmp s.callers h) (Ask w.caller w.key.now) };

    ghost tells = { λ w s h turned.
        IfEntered turned (λ out. IsOk out × IfOk out (λ reply. IsReply R.Key.cmp
        (replay R.Key.cmp s.callers h) (Ask w.caller w.key.now) w.key.now reply.outcome reply.answer))
        × IfUnchanged turned (λ out. IsErr out) };

    fn turn(&mut self, value: &mut Shared<R>) -> Turned<Result<Reply<R>, NoMemory>> {
        let answer = match copy_of(self.alloc, self.rules, &value.table, self.key) {
            Ok(answer) => answer,
            Err(error) => return Turned::Unchanged(Err(error)),
        };
        match value
            .table
            .ask(self.alloc, self.rules, self.caller, self.key)
        {
            Ok(outcome) => Turned::Entered(Ok(Reply { outcome, answer })),
            Err(error) => Turned::Unchanged(Err(error)),
        }
    }
}

// A copy of the answer of a key, where it is published.
fn copy_of<R: Rules>(
    alloc: Global,
    rules: &R,
    table: &Table<R>,
    key: &R::Key,
) -> Result<Option<R::Answer>, NoMemory>
    ensures { IfOk result (λ a. a ≡ get R.Key.cmp (state R.Key.cmp table.now).published key.now) }
{
    match table.answer(key) {
        None => Ok(None),
        Some(answer) => Ok(Some(rules.copy_answer(alloc, answer)?)),
    }
}

/// A Look for the key that its caller waits for. One for nothing, or without memory, is no event.
#[derive(Drop)]
pub struct Looks<'a, R: Rules> {
    pub alloc: Global,
    pub rules: &'a R,
    pub caller: u32,
    pub key: &'a R::Key,
}

impl<R: Rules> Work<Shared<R>> for Looks<'_, R> {
    type Out = Result<Reply<R>, NoMemory>;

    ghost use Rattle.std.specs.Prelude.{◌≡◌, ◌≢◌, ℕ, IfOk, IsOk, Some};
    ghost use Rattle.def_core.specs.declared.event.Event.TheVariants.{Look};
    ghost use Rattle.def_core.specs.declared.outcome.Outcome.TheVariants.{Wait};
    ghost use Rattle.def_core.specs.Replay.{Fits, replay};
    ghost use Rattle.def_core.specs.State.{caller_at};
    ghost use Rattle.qe_works.specs.Works.{IsReply};
    ghost use Rattle.sl_turn.specs.Once.{IfEntered, IfUnchanged};

    ghost entry = { λ w. Look w.caller };

    ghost fits = { λ w s h. Fits {A = R.Answer} R.Key.cmp (replay R.Key.cmp s.callers h) (Look w.caller)
        × ((caller_at (replay {A = R.Answer} R.Key.cmp s.callers h).callers w.caller).awaits ≡ Some w.key.now) };

    ghost tells = { λ w s h turned.
        IfEntered turned (λ out. IsOk out × IfOk out (λ reply. IsReply R.Key.cmp
        (replay R.Key.cmp s.callers h) (Look w.caller) w.key.now reply.outcome reply.answer
        × ((n : ℕ) → reply.outcome ≢ Wait n)))
        × IfUnchanged turned (λ out. IfOk out (λ reply. IsReply R.Key.cmp
        (replay R.Key.cmp s.callers h) (Look w.caller) w.key.now reply.outcome reply.answer
        × ((n : ℕ) × (reply.outcome ≡ Wait n)))) };

    fn turn(&mut self, value: &mut Shared<R>) -> Turned<Result<Reply<R>, NoMemory>> {
        let answer = match copy_of(self.alloc, self.rules, &value.table, self.key) {
            Ok(answer) => answer,
            Err(error) => return Turned::Unchanged(Err(error)),
        };
        let outcome = value.table.look(self.caller);
        match &outcome {
            Outcome::Wait(_) => Turned::Unchanged(Ok(Reply { outcome, answer })),
            _ => Turned::Entered(Ok(Reply { outcome, answer })),
        }
    }
}

/// A Publish of an answer, which it hands over once.
#[derive(Drop)]
pub struct Publishes<R: Rules> {
    pub caller: u32,
    pub answer: Option<R::Answer>,
}

impl<R: Rules> Work<Shared<R>> for Publishes<R> {
    type Out = ();

    ghost use Rattle.std.specs.Prelude.{◌≡◌, IsSome};
    ghost use Rattle.def_core.specs.Replay.{Fits, replay};
    ghost use Rattle.qe_works.specs.Works.{publishing};
    ghost use Rattle.sl_turn.specs.Once.{IfUnchanged};

    ghost entry = { λ w. publishing w.caller w.answer };

    ghost fits = { λ w s h. IsSome w.answer
        × Fits R.Key.cmp (replay R.Key.cmp s.callers h) (publishing w.caller w.answer) };

    ghost tells = { λ w s h turned. IfUnchanged turned (λ out. ⊥) };

    fn turn(&mut self, value: &mut Shared<R>) -> Turned<()> {
        match self.answer.take() {
            None => unreachable!(),
            Some(answer) => {
                value.table.publish(self.caller, answer);
                Turned::Entered(())
            }
        }
    }
}

/// An Abandon of a caller that has something to give back.
#[derive(Drop)]
pub struct Abandons {
    pub caller: u32,
}

impl<R: Rules> Work<Shared<R>> for Abandons {
    type Out = ();

    ghost use Rattle.def_core.specs.declared.event.Event.TheVariants.{Abandon};
    ghost use Rattle.def_core.specs.Replay.{Fits, replay};
    ghost use Rattle.sl_turn.specs.Once.{IfUnchanged};

    ghost entry = { λ w. Abandon w.caller };

    ghost fits = { λ w s h. Fits {A = R.Answer} R.Key.cmp (replay R.Key.cmp s.callers h) (Abandon w.caller) };

    ghost tells = { λ w s h turned. IfUnchanged turned (λ out. ⊥) };

    fn turn(&mut self, value: &mut Shared<R>) -> Turned<()> {
        value.table.abandon(self.caller);
        Turned::Entered(())
    }
}
