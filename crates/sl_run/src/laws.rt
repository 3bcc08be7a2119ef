//! Laws about the definitions.

ghost use Rattle.sl_run.specs.Compile.{OneCompilation};

/// A text compiles to one thing at most, so each status of `one` comes exactly where its reply does.
pub fn one_compilation()
    ensures { OneCompilation }
{}
