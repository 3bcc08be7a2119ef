//! What ends the search for a name that is declared twice.

use sl_base::NoMemory;
use sl_token::Token;
use std::alloc::AllocError;

/// What ends the search before the last scope.
#[derive(Debug, Drop)]
pub enum Early {
    /// A name that a scope declares twice.
    Twice(Token),
    /// Memory ran out.
    NoMemory,
}

impl From<NoMemory> for Early {
    ghost use Rattle.std.specs.Prelude.{◌≡◌};
    ghost use Rattle.sl_scopes.specs.declared.early.Early.TheVariants.{NoMemory};

    ghost from_gives = { λ _ early. early ≡ NoMemory };

    fn from(_error: NoMemory) -> Early {
        Early::NoMemory
    }
}

impl From<AllocError> for Early {
    ghost use Rattle.std.specs.Prelude.{◌≡◌};
    ghost use Rattle.sl_scopes.specs.declared.early.Early.TheVariants.{NoMemory};

    ghost from_gives = { λ _ early. early ≡ NoMemory };

    fn from(_error: AllocError) -> Early {
        Early::NoMemory
    }
}
