//! Laws on turns: what a caller may do in its next one, whatever others have done by then.

ghost use Rattle.qe_works.specs.Turns.{StaysLegal, LooksOn};

use qe_rules::Rules;

/// An Ask, a Publish or an Abandon that is legal after what its caller has seen is legal after each history
/// that the caller's next turn may find.
pub fn stays_legal<R: Rules>()
    ensures { (rules : R) → StaysLegal R.Key.cmp (R.meaning rules) R }
{}

/// A caller that waits for a key may look for it in its next turn. Where the key is claimed no longer, the
/// Look is legal.
pub fn looks_on<R: Rules>()
    ensures { (rules : R) → LooksOn R.Key.cmp (R.meaning rules) R }
{}
