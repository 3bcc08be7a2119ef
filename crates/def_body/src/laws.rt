//! Laws of the definitions.

ghost use Rattle.def_body.specs.Laws.{BodiesAreSound};

/// What a body gives rests on the answers that it uses, it needs what it lacks, and it hands circular answers
/// on: this holds of every body that is data.
pub fn bodies_are_sound()
    ensures { BodiesAreSound }
{}
