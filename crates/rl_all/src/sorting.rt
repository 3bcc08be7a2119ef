//! Diagnostics are put in order.

ghost use Rattle.std.specs.Prelude.{IfOk};
ghost use Rattle.def_check.specs.Reply.{IsReplyOf, IsSortedOnce};

use crate::told::Told;
use sl_base::{List, NoMemory};
use sl_key::Reply;
use std::alloc::Global;

/// The reply where all this is told: each diagnostic once, in their order.
pub fn reply_of(alloc: Global, told: Vec<Told>) -> Result<Reply, NoMemory>
    ensures { IfOk result (IsReplyOf told.items) }
{
    if told.is_empty() {
        return Ok(Reply::Made);
    }
    let mut diags = List::new(alloc);
    for one in sorted_once(told)? {
        diags.push(one.into_diag())?;
    }
    Ok(Reply::Failed(diags))
}

// The diagnostics in their order, equal ones once.
fn sorted_once(mut told: Vec<Told>) -> Result<Vec<Told>, NoMemory>
    ensures { IfOk result (λ sorted. IsSortedOnce told.items sorted.items) }
{
    told.sort()?;
    told.dedup();
    Ok(told)
}
