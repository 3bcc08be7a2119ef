//! Keys are asked.

ghost use Rattle.std.specs.Prelude.{◌≡◌, ◌∷◌, ◌++◌, [], IfOk, OnOk, map};
ghost use Rattle.def_check.specs.Roots.{behind_syntax};
ghost use Rattle.def_sources.specs.Sources.{Sources};
ghost use Rattle.rl_all.specs.Asking.{Asks, ForAnswers, Gains, keys_for};
ghost use Rattle.sl_key.specs.Names.{decls_in, keys_of};
ghost use Rattle.sl_key.specs.Order.{module_key};
ghost use Rattle.sl_key.specs.declared.key.Kind.TheVariants.{Imports};

use crate::rules::SlangRules;
use qe_rules::{Asker, Steps};
use sl_base::{Name, NoMemory};
use sl_key::{Answer, Declarations, Good, Key, Kind};
use std::alloc::Global;
use std::sync::ledger::Ledger;

/// Asks a key.
pub fn ask<A: Asker<SlangRules>, L: Ledger>(
    alloc: Global,
    asker: &mut A,
    key: &Key,
    steps: &mut Steps<L>,
) -> Result<Answer, NoMemory>
    ensures answer { IfOk result (λ told.
        ForAnswers (A.subject asker.old) (λ answer. told ≡ answer key.now)) }
    ensures asks { Asks A.subject A.worked A.keeps_to asker.old asker.new
        steps.old steps.new (key.now ∷ []) }
    ensures gains { OnOk result (Gains A.has asker.old asker.new (key.now ∷ [])) }
{
    let answer = asker.ask(alloc, key, steps)?;
    Ok(answer)
}

/// Asks the syntax of a module and, where it is good, its imports and the key of each declaration in
/// order. Gives their answers.
pub fn ask_module<A: Asker<SlangRules>, L: Ledger>(
    alloc: Global,
    asker: &mut A,
    name: &Name,
    steps: &mut Steps<L>,
) -> Result<Vec<Answer>, NoMemory>
    ensures answers { IfOk result (λ answers. ForAnswers (A.subject asker.old) (λ answer.
        answers.items ≡ map answer (keys_for (A.subject asker.old) answer name.now))) }
    ensures asks { ForAnswers (A.subject asker.old) (λ answer.
        Asks A.subject A.worked A.keeps_to asker.old asker.new steps.old steps.new
        (keys_for (A.subject asker.old) answer name.now)) }
    ensures gains { OnOk result (ForAnswers (A.subject asker.old) (λ answer.
        Gains A.has asker.old asker.new (keys_for (A.subject asker.old) answer name.now))) }
{
    let key = Key::of_module(alloc, Kind::Syntax, name)?;
    let syntax = ask(alloc, asker, &key, steps)?;
    let keys = keys_behind(alloc, name, &syntax)?;
    let mut answers = Vec::new(alloc);
    answers.push(syntax)?;
    ask_each(alloc, asker, &keys, &mut answers, steps)?;
    Ok(answers)
}

// The keys that are asked behind a module's syntax, where this is its answer.
fn keys_behind(alloc: Global, name: &Name, syntax: &Answer) -> Result<Vec<Key>, NoMemory>
    ensures { (sources : Sources) → IfOk result (λ keys. ForAnswers sources (λ answer.
        keys.items ≡ behind_syntax sources answer name.now syntax.now)) }
{
    match syntax {
        Answer::Good(Good::Syntax(decls)) => keys_in(alloc, name, decls.get()),
        _ => Ok(Vec::new(alloc)),
    }
}

// The key of a module's imports, and the keys of its declarations in order.
fn keys_in(alloc: Global, name: &Name, decls: &Declarations) -> Result<Vec<Key>, NoMemory>
    ensures { IfOk result (λ keys.
        keys.items ≡ module_key Imports name.now ∷ keys_of name.now (decls_in decls.now)) }
{
    let mut keys = Vec::new(alloc);
    keys.push(Key::of_module(alloc, Kind::Imports, name)?)?;
    decls.add_keys(alloc, name, &mut keys)?;
    Ok(keys)
}

// Asks keys in order, and puts their answers behind others.
fn ask_each<A: Asker<SlangRules>, L: Ledger>(
    alloc: Global,
    asker: &mut A,
    keys: &[Key],
    answers: &mut Vec<Answer>,
    steps: &mut Steps<L>,
) -> Result<(), NoMemory>
    ensures answers { OnOk result (ForAnswers (A.subject asker.old) (λ answer.
        answers.new.items ≡ answers.old.items ++ map answer keys.now)) }
    ensures asks { Asks A.subject A.worked A.keeps_to asker.old asker.new
        steps.old steps.new keys.now }
    ensures gains { OnOk result (Gains A.has asker.old asker.new keys.now) }
{
    for key in keys {
        answers.push(ask(alloc, asker, key, steps)?)?;
    }
    Ok(())
}
