//! Laws of the definitions.

ghost use Rattle.def_check.specs.Laws.{BodiesAreLawful, OneReply};

/// What a body gives rests on the answers that it uses, it hands circular answers on and makes none, and it
/// leads no further than the keys of its module and of the modules of the sources.
pub fn bodies_are_lawful()
    ensures { BodiesAreLawful }
{}

/// All replies to a request say the same.
pub fn one_reply()
    ensures { OneReply }
{}
