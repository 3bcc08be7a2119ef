//! What is done in one turn.

ghost use Rattle.std.specs.Prelude.{◌≡◌};
ghost use Rattle.sl_turn.specs.Once.{history_after, KeepsUnchanged};

use crate::stands_for::StandsFor;

/// What a turn answers, and whether it entered its entry in the history.
#[derive(Debug, Drop)]
pub enum Turned<O> {
    /// The history grew by the work's entry.
    Entered(O),
    /// The value is as it was.
    Unchanged(O),
}

/// What is done in one turn on the value behind a lock. It has one entry, which it enters or not, a
/// test of the subjects and histories on which it may run, and a meaning of each answer for the value's
/// subject and the history on which it ran.
pub trait Work<T: StandsFor> {
    /// What a turn answers.
    type Out: Drop;

    ghost use Rattle.std.specs.Prelude.{List};
    ghost use Rattle.sl_turn.specs.declared.work.Turned.{Turned};

    ghost entry: { Self → T.Entry };

    ghost fits: { Self → T.Subject → List T.Entry → Type 0 };

    ghost tells: { Self → T.Subject → List T.Entry → Turned Self.Out → Type 0 };

    /// Runs on the value, and enters its entry or leaves the value as it was.
    fn turn(&mut self, value: &mut T) -> Turned<Self::Out>
        requires { fits self.old (T.subject value.old) (T.history value.old) }
        ensures subject { T.subject value.new ≡ T.subject value.old }
        ensures history { T.history value.new ≡ history_after result (entry self.old) (T.history value.old) }
        ensures unchanged { KeepsUnchanged result value.old value.new }
        ensures told { tells self.old (T.subject value.old) (T.history value.old) result };
}
