//! What answers tell.

ghost use Rattle.std.specs.Prelude.{◌≡◌, ◌∷◌, ◌++◌, [], IfOk, OnOk, map};
ghost use Rattle.std.specs.List.{flat_map};
ghost use Rattle.def_check.specs.Reply.{broken, cycle_told, key_text, told_by};
ghost use Rattle.def_check.specs.Roots.{pointed_to};
ghost use Rattle.rl_all.specs.Asking.{Asks, ForAnswers, Gains};
ghost use Rattle.rl_all.specs.Telling.{place_in};
ghost use Rattle.sl_key.specs.declared.answer.Answer.TheVariants.{Circular};

use crate::asking::ask;
use crate::diagnostics::diagnostic;
use crate::rules::SlangRules;
use crate::told::Told;
use qe_rules::{Asker, Steps};
use sl_base::{Bytes, Diag, List, NoMemory, Place, code};
use sl_key::{Answer, Good, Key, Kind, copy_diag, name_of};
use std::alloc::Global;
use std::sync::ledger::Ledger;

/// The place of a module as a whole.
const FIRST: Place = Place { line: 1, column: 1 };

/// Puts what answers tell behind what was told before, in their order. Asks what they point to.
pub fn tell_each<A: Asker<SlangRules>, L: Ledger>(
    alloc: Global,
    asker: &mut A,
    answers: &[Answer],
    steps: &mut Steps<L>,
) -> Result<Vec<Told>, NoMemory>
    ensures told { IfOk result (λ told. ForAnswers (A.subject asker.old) (λ answer.
        told.items ≡ flat_map (told_by (A.subject asker.old) answer) answers.now)) }
    ensures asks { ForAnswers (A.subject asker.old) (λ answer.
        Asks A.subject A.worked A.keeps_to asker.old asker.new steps.old steps.new
        (flat_map (pointed_to (A.subject asker.old) answer) answers.now)) }
    ensures gains { OnOk result (ForAnswers (A.subject asker.old) (λ answer.
        Gains A.has asker.old asker.new
        (flat_map (pointed_to (A.subject asker.old) answer) answers.now))) }
{
    let mut told = Vec::new(alloc);
    for answer in answers {
        tell(alloc, asker, answer, &mut told, steps)?;
    }
    Ok(told)
}

// Puts what an answer tells behind what was told before: what a rule that its key breaks tells, what
// the key at fault tells, or the cycle.
fn tell<A: Asker<SlangRules>, L: Ledger>(
    alloc: Global,
    asker: &mut A,
    answer: &Answer,
    told: &mut Vec<Told>,
    steps: &mut Steps<L>,
) -> Result<(), NoMemory>
    ensures told { OnOk result (ForAnswers (A.subject asker.old) (λ f.
        told.new.items ≡ told.old.items ++ told_by (A.subject asker.old) f answer.now)) }
    ensures asks { ForAnswers (A.subject asker.old) (λ f.
        Asks A.subject A.worked A.keeps_to asker.old asker.new steps.old steps.new
        (pointed_to (A.subject asker.old) f answer.now)) }
    ensures gains { OnOk result (ForAnswers (A.subject asker.old) (λ f.
        Gains A.has asker.old asker.new (pointed_to (A.subject asker.old) f answer.now))) }
{
    match answer {
        Answer::Good(_) => Ok(()),
        Answer::Bad(diag) => {
            let diag = copy_diag(alloc, diag)?;
            push(alloc, told, diag)
        }
        Answer::Spoiled(culprit) => tell_culprit(alloc, asker, culprit.get(), told, steps),
        Answer::Circular(cycle) => tell_cycle(alloc, asker, cycle.get().as_slice(), told, steps),
    }
}

// Puts a diagnostic behind what was told before.
fn push(alloc: Global, told: &mut Vec<Told>, diag: Diag) -> Result<(), NoMemory>
    ensures { OnOk result (told.new.items ≡ told.old.items ++ diag ∷ []) }
{
    Ok(told.push(Told::new(alloc, diag)?)?)
}

// Asks the key at fault, and puts its diagnostic behind what was told before.
fn tell_culprit<A: Asker<SlangRules>, L: Ledger>(
    alloc: Global,
    asker: &mut A,
    culprit: &Key,
    told: &mut Vec<Told>,
    steps: &mut Steps<L>,
) -> Result<(), NoMemory>
    ensures told { OnOk result (ForAnswers (A.subject asker.old) (λ f. told.new.items
        ≡ told.old.items ++ broken (A.subject asker.old) f (f culprit.now))) }
    ensures asks { Asks A.subject A.worked A.keeps_to asker.old asker.new
        steps.old steps.new (culprit.now ∷ []) }
    ensures gains { OnOk result (Gains A.has asker.old asker.new (culprit.now ∷ [])) }
{
    match ask(alloc, asker, culprit, steps)? {
        Answer::Bad(diag) => push(alloc, told, diag),
        _ => Ok(()),
    }
}

// Asks the syntax of the module that has the least key of a cycle, and puts the diagnostic that tells
// the cycle at that key's declaration behind what was told before.
fn tell_cycle<A: Asker<SlangRules>, L: Ledger>(
    alloc: Global,
    asker: &mut A,
    cycle: &[Key],
    told: &mut Vec<Told>,
    steps: &mut Steps<L>,
) -> Result<(), NoMemory>
    ensures told { OnOk result (ForAnswers (A.subject asker.old) (λ f. told.new.items
        ≡ told.old.items ++ cycle_told (A.subject asker.old) f cycle.now)) }
    ensures asks { ForAnswers (A.subject asker.old) (λ f.
        Asks A.subject A.worked A.keeps_to asker.old asker.new steps.old steps.new
        (pointed_to (A.subject asker.old) f (Circular cycle.now))) }
    ensures gains { OnOk result (ForAnswers (A.subject asker.old) (λ f.
        Gains A.has asker.old asker.new
        (pointed_to (A.subject asker.old) f (Circular cycle.now)))) }
{
    let [least, ..] = cycle else {
        return Ok(());
    };
    let syntax = Key::of_module(alloc, Kind::Syntax, &least.path.module)?;
    let place = place_in(&ask(alloc, asker, &syntax, steps)?, least);
    let keys = texts_of(alloc, cycle)?;
    let diag = diagnostic(alloc, &least.path.module, place, code::CIRCULAR, keys)?;
    push(alloc, told, diag)
}

// The place of the name of a key's declaration, where this is the syntax of its module.
fn place_in(syntax: &Answer, key: &Key) -> Place
    ensures { result ≡ place_in syntax.now key.now }
{
    let Answer::Good(Good::Syntax(decls)) = syntax else {
        return FIRST;
    };
    let Some(decl) = decls.get().find_at(key.path.parts.as_slice()) else {
        return FIRST;
    };
    match name_of(decl) {
        Some(name) => name.place,
        None => FIRST,
    }
}

// How keys are told.
fn texts_of(alloc: Global, keys: &[Key]) -> Result<List<Bytes>, NoMemory>
    ensures { IfOk result (λ texts. texts ≡ map key_text keys.now) }
{
    let mut texts = List::new(alloc);
    for key in keys {
        texts.push(key.path.text(alloc)?)?;
    }
    Ok(texts)
}
