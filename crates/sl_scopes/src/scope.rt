//! Which name of a scope clashes with one before it.

ghost use Rattle.std.specs.Prelude.{◌≡◌, ℕ, List, ◌++◌, ◌∷◌, [], map, None, Some, false, OnOk, IfErr};
ghost use Rattle.std.specs.List.{list_any};
ghost use Rattle.std.specs.Map.{update};
ghost use Rattle.std.specs.Str.{bytes_eq};
ghost use Rattle.def_module.specs.Scopes.{Scope};
ghost use Rattle.def_module.specs.Twice.{clash, second_name};
ghost use Rattle.sl_scopes.specs.Names.{declared_in};
ghost use Rattle.sl_scopes.specs.Search.{Ends};
ghost use Rattle.sl_scopes.specs.Seen.{Notes, TellsClash, seen_in};

use crate::declared::Declared;
use crate::early::Early;
use sl_base::NoMemory;
use sl_token::text_at;
use std::alloc::Global;
use std::collections::BTreeMap;

/// The names of a scope so far, and whether what has the name overloads.
type Seen<'a> = BTreeMap<&'a [u8], bool>;

/// Looks for the first name of a scope that clashes with one before it.
pub fn search_scope(alloc: Global, source: &[u8], names: &[Declared]) -> Result<(), Early>
    ensures { Ends source.now (second_name (map (declared_in source.now) names.now)) result }
{
    let mut seen = BTreeMap::new(alloc);
    for name in names {
        enter(source, &mut seen, *name)?;
    }
    Ok(())
}

// Puts a name beside those before it, if it clashes with none of them.
fn enter<'a>(source: &'a [u8], seen: &mut Seen<'a>, this: Declared) -> Result<(), Early>
    ensures ok { OnOk result ((before : Scope) → Notes before seen.old →
        (list_any (clash (declared_in source.now this)) before ≡ false)
        × Notes (before ++ declared_in source.now this ∷ []) seen.new) }
    ensures err { IfErr result (λ early. (before : Scope) → Notes before seen.old →
        TellsClash source.now this before early) }
{
    let text = text_at(source, this.name.span);
    match seen.get(text) {
        Some(overloads) if this.overloads && *overloads => Ok(()),
        Some(_) => Err(Early::Twice(this.name)),
        None => Ok(put(seen, text, this.overloads)?),
    }
}

// Puts a text among those before it.
fn put<'a>(seen: &mut Seen<'a>, text: &'a [u8], overloads: bool) -> Result<(), NoMemory>
    ensures { OnOk result ((other : List ℕ) → seen_in seen.new other
        ≡ update bytes_eq (seen_in seen.old) text.now (Some overloads) other) }
{
    seen.insert(text, overloads)?;
    Ok(())
}
