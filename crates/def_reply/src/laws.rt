//! Laws of the definitions.

ghost use Rattle.def_reply.specs.Laws.{CulpritsAreBad, MadeOfGood, OneText};

/// Callers with the same requests have one text, over any sources.
pub fn one_text()
    ensures { OneText }
{}

/// The culprit of a spoilt answer breaks a rule itself, so what it tells is told.
pub fn culprits_are_bad()
    ensures { CulpritsAreBad }
{}

/// A module is told to be made exactly where it is there and all that is asked for it is good.
pub fn made_of_good()
    ensures { MadeOfGood }
{}
