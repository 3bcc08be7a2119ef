//! Types and values.

ghost use Rattle.std.specs.Prelude.{◌≡◌};
ghost use Rattle.sl_key.specs.Fault.{mark_of, text_of};

/// A type.
#[derive(Clone, Copy, Debug, PartialEq, Eq, PartialOrd, Ord)]
pub enum Ty {
    Bool,
    Int,
    Uint,
}

/// The value of a constant.
#[derive(Clone, Copy, Debug, PartialEq, Eq)]
pub enum Value {
    Bool(bool),
    Int(i32),
    Uint(u32),
}

/// An operator on integers.
#[derive(Clone, Copy, Debug, PartialEq, Eq)]
pub enum Arithmetic {
    Add,
    Subtract,
    Multiply,
}

impl Ty {
    /// How a type is told.
    pub fn text(self) -> &'static str
        ensures { result.now ≡ text_of self }
    {
        match self {
            Ty::Bool => "bool",
            Ty::Int => "int",
            Ty::Uint => "uint",
        }
    }
}

impl Arithmetic {
    /// The mark of an operator.
    pub fn mark(self) -> &'static str
        ensures { result.now ≡ mark_of self }
    {
        match self {
            Arithmetic::Add => "+",
            Arithmetic::Subtract => "-",
            Arithmetic::Multiply => "*",
        }
    }
}
