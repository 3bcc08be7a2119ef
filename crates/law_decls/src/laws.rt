//! Laws: that tokens are one module at most, what is told of them, and that what is read of them is exact.

ghost use Rattle.def_decl_reading.specs.Laws.{ModulesAreExact, ModulesAreRead};
ghost use Rattle.def_module.specs.Laws.{FaultsAreDetermined, FaultsAreLast, ModulesAreUnique};

/// Tokens are one module at most.
pub fn modules_are_unique()
    ensures { ModulesAreUnique }
{}

/// Tokens are one module within the limits, or have one fault, at most and not both.
pub fn faults_are_determined()
    ensures { FaultsAreDetermined }
{}

/// What is told of tokens is told of the modules that continue them furthest; of those the one that is refused last.
pub fn faults_are_last()
    ensures { FaultsAreLast }
{}

/// What is read is a module within the limits. Where tokens are a module, whatever the limits, what is read is this
/// module, and else what is told at the first limit.
pub fn modules_are_read()
    ensures { ModulesAreRead }
{}

/// What is read of modules is the module that tokens are, and else where and why they are refused.
pub fn modules_are_exact()
    ensures { ModulesAreExact }
{}
