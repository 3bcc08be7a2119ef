//! Laws: that tokens begin with one tree at most, what is told of them, and that what is read of them is exact.

ghost use Rattle.def_reading.specs.Laws.{StatementsAreExact};
ghost use Rattle.def_tree.specs.Laws.{ExpressionsAreUnique, FaultsAreDetermined, FaultsAreLast, StatementsAreUnique};

/// Tokens begin with one expression at most that nothing goes on with.
pub fn expressions_are_unique()
    ensures { ExpressionsAreUnique }
{}

/// Tokens begin with one statement at most.
pub fn statements_are_unique()
    ensures { StatementsAreUnique }
{}

/// Tokens begin with one tree within the limits, or have one fault, at most and not both.
pub fn faults_are_determined()
    ensures { FaultsAreDetermined }
{}

/// What is told of tokens is told of the trees that continue them furthest; of those the one that is refused last.
pub fn faults_are_last()
    ensures { FaultsAreLast }
{}

/// What is read of statements is the statement that tokens begin with, and else where and why they are refused.
pub fn statements_are_exact()
    ensures { StatementsAreExact }
{}
