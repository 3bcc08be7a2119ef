//! What parts of definitions come to, where code works them out.

ghost use Rattle.std.specs.Prelude.{◌≡◌};

use crate::answer::Answer;
use crate::key::Key;
use sl_base::NoMemory;

/// What a part of a definition comes to: its value, or what ends the reading of the whole definition.
pub type Flow<T> = Result<T, Early>;

/// What ends the reading of a definition before its end.
#[derive(Drop)]
pub enum Early {
    /// This key is used, which has no answer yet.
    Needs(Key),
    /// This is the answer of the key that is worked out, whatever follows.
    Stop(Answer),
    /// Memory ran out.
    NoMemory,
}

impl From<NoMemory> for Early {
    ghost use Rattle.std.specs.Prelude.{◌≡◌};
    ghost use Rattle.sl_key.specs.declared.flow.Early.TheVariants.{NoMemory};

    ghost from_gives = { λ _ early. early ≡ NoMemory };

    fn from(_error: NoMemory) -> Early {
        Early::NoMemory
    }
}
