//! Laws: what follows for all rules from what is asked of them.

ghost use Rattle.def_query.specs.Laws.{IsSettling, IsAnswering, IsTellingCycles, IsGrowing};

use crate::rules::Rules;

/// A key settles with one answer at most, and exactly where no walk along what keys depend on meets a
/// cycle from it. A key that does not settle has one cycle, which begins with its least key.
pub fn settling<R: Rules>()
    ensures { (rules : R) → IsSettling R.Key.cmp (R.meaning rules) }
{}

/// Each key has one answer. Whichever way one goes on from a key that does not settle, one finds the
/// same cycle, and a key that depends on such a key has its answer.
pub fn answering<R: Rules>()
    ensures { (rules : R) → IsAnswering R.Key.cmp (R.meaning rules) }
{}

/// The answer of a key tells a cycle exactly where the key does not settle.
pub fn telling_cycles<R: Rules>()
    ensures { (rules : R) → IsTellingCycles R.Key.cmp (R.meaning rules) }
{}

/// What a body gives stays under each map that agrees on the answers that it uses and, where it needs a
/// key, lacks this key.
pub fn growing<R: Rules>()
    ensures { (rules : R) → IsGrowing R.Key.cmp (R.meaning rules) }
{}
