//! The binding of buffers to slots.

ghost use Rattle.std.specs.Prelude.{◌≡◌, ◌^◌, ◌<◌, IfErr, IfOk, OnOk, length};
ghost use Rattle.std.specs.List.{filter_map};
ghost use Rattle.def_layout.specs.Binding.{AreBound, HasNoClash};
ghost use Rattle.lay_out.specs.Clash.{Tells};
ghost use Rattle.lay_out.specs.Free.{IsStart, fixed_binding};

use crate::clash::{BindRefusal, refuse_clash};
use crate::free::Free;
use def_layout::{Slot, Wanted};
use sl_base::{List, NoMemory};
use std::alloc::{AllocError, Global};

/// The slots to which buffers are bound, in order: each to the one that it wants, and where it wants none, to set 0 and
/// the least binding that no buffer wants there and none before it got. There are fewer than 2 to the 32 buffers.
/// `Clash` comes exactly where two buffers want one slot.
pub fn bind(alloc: Global, params: &List<Wanted>) -> Result<List<Slot>, BindRefusal>
    requires { length params.now < 2 ^ 32 }
    ensures clash { IfErr result (Tells params.now) }
    ensures none { OnOk result (HasNoClash params.now) }
    ensures bound { IfOk result (λ slots. AreBound params.now slots) }
{
    let wanted = params.as_slice();
    refuse_clash(alloc, wanted)?;
    Ok(slots_of(alloc, wanted)?)
}

// The slots of buffers of which no two want one.
fn slots_of(alloc: Global, wanted: &[Wanted]) -> Result<List<Slot>, NoMemory>
    requires { length wanted.now < 2 ^ 32 }
    ensures { IfOk result (λ slots. AreBound wanted.now slots) }
{
    let mut free = free_of(alloc, wanted)?;
    let mut slots = List::new(alloc);
    for this in wanted {
        let slot = match this {
            Wanted::At(slot) => *slot,
            Wanted::Any => Slot {
                set: 0,
                binding: free.take(),
            },
        };
        slots.push(slot)?;
    }
    Ok(slots)
}

// The bindings of set 0 that no buffer wants.
fn free_of(alloc: Global, wanted: &[Wanted]) -> Result<Free, NoMemory>
    ensures { IfOk result (IsStart wanted.now) }
{
    let mut fixed = fixed_bindings(alloc, wanted)?;
    fixed.sort()?;
    Ok(Free {
        fixed,
        passed: 0,
        next: 0,
    })
}

// The bindings of set 0 that buffers want, in order.
fn fixed_bindings(alloc: Global, wanted: &[Wanted]) -> Result<Vec<u32>, AllocError>
    ensures { IfOk result (λ fixed. fixed.items ≡ filter_map fixed_binding wanted.now) }
{
    wanted
        .iter()
        .filter_map(|this| fixed_binding(*this))
        .collect(alloc)
}

// The binding of set 0 that a buffer wants.
fn fixed_binding(wanted: Wanted) -> Option<u32>
    ensures { result ≡ fixed_binding wanted }
{
    match wanted {
        Wanted::At(slot) if slot.set == 0 => Some(slot.binding),
        _ => None,
    }
}
