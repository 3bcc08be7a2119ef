//! Replies on one thread, and the work that they take.

ghost use Rattle.std.specs.Prelude.{◌≡◌, ◌+◌, IfOk};
ghost use Rattle.def_check.specs.Reply.{IsReply};
ghost use Rattle.rl_all.specs.Telling.{CanBeTold};
ghost use Rattle.rl_all.specs.Working.{IsWorkOf};

use crate::replying::reply;
use crate::rules::SlangRules;
use qe_rules::{AloneAsker, Steps};
use sl_base::NoMemory;
use sl_key::{Reply, Request};
use std::alloc::Global;
use std::sync::ledger::Ledger;

/// A reply, and how many queries were worked out for it.
#[derive(Debug, Drop)]
pub struct Worked {
    pub reply: Reply,
    pub queries: u64,
}

/// The reply to a request of a fresh asker on one thread. The only error is that memory ran out.
pub fn reply_alone<L: Ledger>(
    alloc: Global,
    rules: &SlangRules,
    request: &Request,
    steps: &mut Steps<L>,
) -> Result<Worked, NoMemory>
    ensures replied { IfOk result (λ worked. IsReply rules.now request.now worked.reply) }
    ensures can_be_told { IfOk result (λ worked. CanBeTold worked.reply) }
    ensures queries { IfOk result (λ worked. IsWorkOf rules.now request.now worked.queries) }
    ensures steps { IfOk result (λ worked. steps.new ≡ steps.old + worked.queries) }
{
    let mut asker = AloneAsker::new(alloc, rules);
    let made = reply(alloc, rules, &mut asker, request, steps)?;
    let queries = asker.worked() as u64;
    Ok(Worked {
        reply: made,
        queries,
    })
}
