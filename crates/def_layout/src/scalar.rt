//! The numbers of which elements are made.

ghost use Rattle.std.specs.Prelude.{◌≡◌};
ghost use Rattle.def_layout.specs.Shape.{bytes};

/// A number of which elements are made.
#[derive(Clone, Copy, Debug, PartialEq, Eq)]
pub enum Scalar {
    Int,
    Uint,
}

impl Scalar {
    /// How many bytes the number has, which is its alignment too.
    pub fn bytes(self) -> u32
        ensures { result ≡ bytes self }
    {
        match self {
            Scalar::Int | Scalar::Uint => 4,
        }
    }
}
