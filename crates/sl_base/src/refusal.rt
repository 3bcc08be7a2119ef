//! Why a part of a module's source was refused.

use crate::list::{Bytes, List};
use crate::memory::NoMemory;
use crate::place::Place;
use std::alloc::AllocError;

/// Why a part of a module's source was refused.
#[derive(Debug, Drop)]
pub enum Refusal {
    /// What is told of the part, as a diagnostic in this source: where, which code, and what its text is about, in the
    /// order of the text.
    Diag {
        at: Place,
        code: u16,
        args: List<Bytes>,
    },
    /// Memory ran out.
    NoMemory,
}

impl From<NoMemory> for Refusal {
    ghost use Rattle.std.specs.Prelude.{◌≡◌};
    ghost use Rattle.sl_base.specs.declared.refusal.Refusal.TheVariants.{NoMemory};

    ghost from_gives = { λ _ refusal. refusal ≡ NoMemory };

    fn from(_error: NoMemory) -> Refusal {
        Refusal::NoMemory
    }
}

impl From<AllocError> for Refusal {
    ghost use Rattle.std.specs.Prelude.{◌≡◌};
    ghost use Rattle.sl_base.specs.declared.refusal.Refusal.TheVariants.{NoMemory};

    ghost from_gives = { λ _ refusal. refusal ≡ NoMemory };

    fn from(_error: AllocError) -> Refusal {
        Refusal::NoMemory
    }
}
