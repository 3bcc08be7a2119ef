//! Laws.

ghost use Rattle.def_reading.specs.Laws.{ExpressionsAreExact};

/// What is read of expressions is the expression that tokens begin with, and else where and why they are refused.
pub fn expressions_are_exact()
    ensures { ExpressionsAreExact }
{}
