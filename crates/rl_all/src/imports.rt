//! The rule of the imports of a module.

ghost use Rattle.std.specs.Prelude.{◌≡◌, IfOk};
ghost use Rattle.def_body.specs.Part.{Reads, run, run_body};
ghost use Rattle.def_check.specs.Body.{imports_part};
ghost use Rattle.sl_key.specs.Flow.{Tells, Value as Given, and_then, hold};
ghost use Rattle.sl_key.specs.declared.key.Kind.TheVariants.{Imports};

use qe_rules::Step;
use sl_base::{List, Name, NoMemory};
use sl_key::{Answer, Facts, Flow, Good, Key, Shared, declarations_of, finish};
use std::alloc::Global;

/// The body of the key of a module's imports: its syntax, and then the modules that it sees, which are
/// none so far.
pub fn imports(alloc: Global, facts: &Facts, name: &Name) -> Result<Step<Key, Answer>, NoMemory>
    ensures { IfOk result (λ step. step ≡ run_body Imports facts.now.pairs (Reads (imports_part name.now))) }
{
    finish(imports_good(alloc, facts, name))
}

// What the imports of a module hold.
fn imports_good(alloc: Global, facts: &Facts, name: &Name) -> Flow<Good>
    ensures { Tells result
        (and_then (run facts.now.pairs (imports_part name.now)) (λ modules. Given (hold Imports modules))) }
{
    let _decls = declarations_of(alloc, facts, name)?;
    Ok(Good::Imports(Shared::new(alloc, List::new(alloc))?))
}
