//! Why sources are not loaded.

use sl_base::{Name, NoMemory};

/// Why sources were not loaded.
#[derive(Debug, Drop)]
pub enum LoadRefusal {
    /// A root had a fault when it was asked for the name. Roots are counted from 1; a number past the
    /// last one of 32 bits is given as that one.
    Fault { root: u32, name: Name },
    /// The module has more than 262,144 bytes.
    ModuleTooLarge { name: Name },
    /// A 257th module was found.
    TooManyModules,
    NoMemory,
}

impl From<NoMemory> for LoadRefusal {
    ghost use Rattle.std.specs.Prelude.{◌≡◌};
    ghost use Rattle.sl_roots.specs.declared.refusal.LoadRefusal.TheVariants.{NoMemory};

    ghost from_gives = { λ _ refusal. refusal ≡ NoMemory };

    fn from(_: NoMemory) -> LoadRefusal {
        LoadRefusal::NoMemory
    }
}
