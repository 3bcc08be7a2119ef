//! Buffers that want one slot.

ghost use Rattle.std.specs.Prelude.{◌≡◌, ◌^◌, ◌<◌, IfErr, IfOk, OnOk, Some, length};
ghost use Rattle.std.specs.BTreeMap.{Updates, get};
ghost use Rattle.def_layout.specs.Binding.{HasNoClash};
ghost use Rattle.def_layout.specs.Slots.{slot_cmp};
ghost use Rattle.lay_out.specs.Clash.{Tells};

use def_layout::{Slot, Wanted};
use sl_base::NoMemory;
use std::alloc::Global;
use std::collections::BTreeMap;

/// Why buffers were not bound.
#[derive(Clone, Copy, Debug, PartialEq, Eq)]
pub enum BindRefusal {
    /// Two buffers want one slot. The numbers count from 0: `second` is the first buffer that wants the slot of one
    /// before it, which is `first`.
    Clash { first: u32, second: u32 },
    /// Memory ran out.
    NoMemory,
}

impl From<NoMemory> for BindRefusal {
    ghost use Rattle.std.specs.Prelude.{◌≡◌};
    ghost use Rattle.lay_out.specs.declared.clash.BindRefusal.TheVariants.{NoMemory};

    ghost from_gives = { λ _ refusal. refusal ≡ NoMemory };

    fn from(_error: NoMemory) -> BindRefusal {
        BindRefusal::NoMemory
    }
}

/// The slots that the first buffers want, and the number of the buffer that wants each.
type Seen = BTreeMap<Slot, u32>;

/// Looks for the first buffer that wants the slot of one before it.
pub fn refuse_clash(alloc: Global, wanted: &[Wanted]) -> Result<(), BindRefusal>
    requires { length wanted.now < 2 ^ 32 }
    ensures ok { OnOk result (HasNoClash wanted.now) }
    ensures err { IfErr result (Tells wanted.now) }
{
    let mut seen = BTreeMap::new(alloc);
    for (number, this) in wanted.iter().enumerate() {
        if let Wanted::At(slot) = *this {
            let second = number as u32;
            if let Some(first) = put(&mut seen, slot, second)? {
                return Err(BindRefusal::Clash { first, second });
            }
        }
    }
    Ok(())
}

// Puts a number at a slot, and tells the one that was there.
fn put(seen: &mut Seen, slot: Slot, number: u32) -> Result<Option<u32>, NoMemory>
    ensures old { IfOk result (λ old. old ≡ get slot_cmp seen.old slot) }
    ensures updates { OnOk result (Updates slot_cmp seen.old seen.new slot (Some number)) }
{
    Ok(seen.insert(slot, number)?)
}
