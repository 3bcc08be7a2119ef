//! What the value behind a lock stands for.

/// A value that stands for a subject, which no turn changes, and for a list of entries, its history.
pub trait StandsFor: Drop {
    /// What the value is about. The code keeps no value of it.
    type Subject;

    /// One entry of the history. The code keeps no list of them.
    type Entry;

    ghost use Rattle.std.specs.Prelude.{ℕ, List};

    ghost subject: { Self → Self.Subject };

    ghost history: { Self → List Self.Entry };

    ghost caller: { Self.Entry → ℕ };

    ghost legal: { Self.Subject → List Self.Entry → Type 0 };
}
