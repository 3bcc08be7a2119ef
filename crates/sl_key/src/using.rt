//! The use of keys where definitions are worked out.

ghost use Rattle.std.specs.Prelude.{◌≡◌, IfOk};
ghost use Rattle.def_query.specs.Map.{get};
ghost use Rattle.sl_key.specs.Flow.{Flow as Defined, Tells, finished, used, used_by};
ghost use Rattle.sl_key.specs.Order.{key_cmp, module_key, path_key};
ghost use Rattle.sl_key.specs.declared.answer.Answer.TheVariants.{Spoiled};
ghost use Rattle.sl_key.specs.declared.answer.Good.{Good as Held};
ghost use Rattle.sl_key.specs.declared.flow.Early.TheVariants.{Stop as stop};
ghost use Rattle.sl_key.specs.declared.key.Kind.TheVariants.{Syntax, Imports, Alias, Const};

use crate::answer::{Answer, Facts, Good};
use crate::declarations::Declarations;
use crate::flow::{Early, Flow};
use crate::key::{Key, Kind};
use crate::path::DeclPath;
use crate::shared::Shared;
use crate::value::{Ty, Value};
use qe_rules::Step;
use sl_base::{List, Name, NoMemory};
use std::alloc::Global;

/// What a key's body gives whose parts come to this.
pub fn finish(read: Flow<Good>) -> Result<Step<Key, Answer>, NoMemory>
    ensures { (flow : Defined Held) → Tells read flow →
        IfOk result (λ step. step ≡ finished flow) }
{
    match read {
        Ok(good) => Ok(Step::Done(Answer::Good(good))),
        Err(Early::Needs(key)) => Ok(Step::Needs(key)),
        Err(Early::Stop(answer)) => Ok(Step::Done(answer)),
        Err(Early::NoMemory) => Err(NoMemory),
    }
}

/// The declarations of a module.
pub fn declarations_of(alloc: Global, facts: &Facts, module: &Name) -> Flow<Shared<Declarations>>
    ensures { Tells result (used facts.now.pairs (module_key Syntax module.now)) }
{
    let key = Key::of_module(alloc, Kind::Syntax, module)?;
    match held(alloc, facts, &key)? {
        Good::Syntax(declarations) => Ok(declarations),
        _ => Err(spoiled(alloc, &key)?),
    }
}

/// The modules that a module sees.
pub fn modules_of(alloc: Global, facts: &Facts, module: &Name) -> Flow<Shared<List<Name>>>
    ensures { Tells result (used facts.now.pairs (module_key Imports module.now)) }
{
    let key = Key::of_module(alloc, Kind::Imports, module)?;
    match held(alloc, facts, &key)? {
        Good::Imports(modules) => Ok(modules),
        _ => Err(spoiled(alloc, &key)?),
    }
}

/// The type of an alias.
pub fn alias_type(alloc: Global, facts: &Facts, path: DeclPath) -> Flow<Ty>
    ensures { Tells result (used facts.now.pairs (path_key Alias path)) }
{
    let key = Key::of_path(alloc, Kind::Alias, path);
    match held(alloc, facts, &key)? {
        Good::Alias(ty) => Ok(*ty.get()),
        _ => Err(spoiled(alloc, &key)?),
    }
}

/// The value of a constant.
pub fn const_value(alloc: Global, facts: &Facts, path: DeclPath) -> Flow<Value>
    ensures { Tells result (used facts.now.pairs (path_key Const path)) }
{
    let key = Key::of_path(alloc, Kind::Const, path);
    match held(alloc, facts, &key)? {
        Good::Const(value) => Ok(*value.get()),
        _ => Err(spoiled(alloc, &key)?),
    }
}

// What a key's answer holds, where it is used.
fn held(alloc: Global, facts: &Facts, key: &Key) -> Flow<Good>
    ensures { Tells result (used_by key.now (get key_cmp facts.now.pairs key.now)) }
{
    match facts.get(key) {
        None => Err(Early::Needs(key.copy(alloc)?)),
        Some(Answer::Good(good)) => Ok(good.share()?),
        Some(Answer::Bad(_)) => Err(spoiled(alloc, key)?),
        Some(Answer::Spoiled(culprit)) => Err(Early::Stop(Answer::Spoiled(culprit.share()?))),
        Some(Answer::Circular(cycle)) => Err(Early::Stop(Answer::Circular(cycle.share()?))),
    }
}

// The key is at fault.
fn spoiled(alloc: Global, key: &Key) -> Result<Early, NoMemory>
    ensures { IfOk result (λ early. early ≡ stop (Spoiled key.now)) }
{
    let culprit = Shared::new(alloc, key.copy(alloc)?)?;
    Ok(Early::Stop(Answer::Spoiled(culprit)))
}
