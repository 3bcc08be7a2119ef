//! What requests are replied.

ghost use Rattle.std.specs.Prelude.{◌≡◌, ◌+◌, ◌++◌, ◌∷◌, [], IfOk, OnOk};
ghost use Rattle.std.specs.List.{flat_map};
ghost use Rattle.def_check.specs.Reply.{IsReply, told_by, told_for};
ghost use Rattle.def_check.specs.Roots.{pointed_to, roots_of};
ghost use Rattle.rl_all.specs.Asking.{Asks, ForAnswers, Gains, HasAll, Keeps, WorksWithin, keys_for};
ghost use Rattle.rl_all.specs.Telling.{CanBeTold};
ghost use Rattle.sl_base.specs.declared.diag.Site.TheVariants.{Request as Whole};
ghost use Rattle.sl_key.specs.Fault.{told_at};
ghost use Rattle.sl_key.specs.declared.fault.Fault.TheVariants.{NoModule};
ghost use Rattle.sl_key.specs.declared.request.Request.TheVariants.{Make};
ghost use Rattle.sl_key.specs.declared.request.Term.TheVariants.{Load};

use crate::asking::ask_module;
use crate::diagnostics::no_module;
use crate::rules::SlangRules;
use crate::sorting::reply_of;
use crate::telling::tell_each;
use crate::told::Told;
use qe_rules::{Asker, Steps};
use sl_base::{Name, NoMemory};
use sl_key::{Reply, Request, Term};
use std::alloc::Global;
use std::sync::ledger::Ledger;

/// The reply to a request, whoever answers the keys: each diagnostic once, in their order. The only
/// error is that memory ran out.
pub fn reply<A: Asker<SlangRules>, L: Ledger>(
    alloc: Global,
    rules: &SlangRules,
    asker: &mut A,
    request: &Request,
    steps: &mut Steps<L>,
) -> Result<Reply, NoMemory>
    requires { A.subject asker.old ≡ rules.now }
    ensures replied { IfOk result (IsReply rules.now request.now) }
    ensures can_be_told { IfOk result CanBeTold }
    ensures has { OnOk result (ForAnswers rules.now (λ answer.
        HasAll A.has asker.new (roots_of rules.now answer request.now))) }
    ensures kept { OnOk result (Keeps A.has asker.old asker.new) }
    ensures subject { A.subject asker.new ≡ A.subject asker.old }
    ensures steps { steps.new + A.worked asker.old ≡ steps.old + A.worked asker.new }
    ensures within { ForAnswers rules.now (λ answer. WorksWithin A.keeps_to asker.old asker.new
        (roots_of rules.now answer request.now)) }
{
    let told = told_for(alloc, rules, asker, request, steps)?;
    reply_of(alloc, told)
}

// All that a request is told, in the order in which its keys are asked.
fn told_for<A: Asker<SlangRules>, L: Ledger>(
    alloc: Global,
    rules: &SlangRules,
    asker: &mut A,
    request: &Request,
    steps: &mut Steps<L>,
) -> Result<Vec<Told>, NoMemory>
    requires { A.subject asker.old ≡ rules.now }
    ensures told { IfOk result (λ told. ForAnswers rules.now (λ answer.
        told.items ≡ told_for rules.now answer request.now)) }
    ensures asks { ForAnswers rules.now (λ answer.
        Asks A.subject A.worked A.keeps_to asker.old asker.new steps.old steps.new
        (roots_of rules.now answer request.now)) }
    ensures gains { OnOk result (ForAnswers rules.now (λ answer.
        Gains A.has asker.old asker.new (roots_of rules.now answer request.now))) }
{
    match request {
        Request::Make(Term::Load(name)) => told_of_load(alloc, rules, asker, name, steps),
    }
}

// All that the request for a module is told.
fn told_of_load<A: Asker<SlangRules>, L: Ledger>(
    alloc: Global,
    rules: &SlangRules,
    asker: &mut A,
    name: &Name,
    steps: &mut Steps<L>,
) -> Result<Vec<Told>, NoMemory>
    requires { A.subject asker.old ≡ rules.now }
    ensures told { IfOk result (λ told. ForAnswers rules.now (λ answer.
        told.items ≡ told_for rules.now answer (Make (Load name.now)))) }
    ensures asks { ForAnswers rules.now (λ answer.
        Asks A.subject A.worked A.keeps_to asker.old asker.new steps.old steps.new
        (roots_of rules.now answer (Make (Load name.now)))) }
    ensures gains { OnOk result (ForAnswers rules.now (λ answer.
        Gains A.has asker.old asker.new (roots_of rules.now answer (Make (Load name.now))))) }
{
    match rules.bytes_of(name) {
        Some(_) => told_of_module(alloc, asker, name, steps),
        None => told_of_absent(alloc, name),
    }
}

// What is told of a module that the sources have.
fn told_of_module<A: Asker<SlangRules>, L: Ledger>(
    alloc: Global,
    asker: &mut A,
    name: &Name,
    steps: &mut Steps<L>,
) -> Result<Vec<Told>, NoMemory>
    ensures told { IfOk result (λ told. ForAnswers (A.subject asker.old) (λ answer. told.items
        ≡ flat_map (λ key. told_by (A.subject asker.old) answer (answer key))
        (keys_for (A.subject asker.old) answer name.now))) }
    ensures asks { ForAnswers (A.subject asker.old) (λ answer.
        Asks A.subject A.worked A.keeps_to asker.old asker.new steps.old steps.new
        (keys_for (A.subject asker.old) answer name.now
        ++ flat_map (λ key. pointed_to (A.subject asker.old) answer (answer key))
        (keys_for (A.subject asker.old) answer name.now))) }
    ensures gains { OnOk result (ForAnswers (A.subject asker.old) (λ answer.
        Gains A.has asker.old asker.new
        (keys_for (A.subject asker.old) answer name.now
        ++ flat_map (λ key. pointed_to (A.subject asker.old) answer (answer key))
        (keys_for (A.subject asker.old) answer name.now)))) }
{
    let answers = ask_module(alloc, asker, name, steps)?;
    tell_each(alloc, asker, &answers, steps)
}

// What is told of an absent module.
fn told_of_absent(alloc: Global, name: &Name) -> Result<Vec<Told>, NoMemory>
    ensures { IfOk result (λ told. told.items
        ≡ told_at Whole (NoModule name.now) ∷ []) }
{
    let mut told = Vec::new(alloc);
    told.push(Told::new(alloc, no_module(alloc, name)?)?)?;
    Ok(told)
}
