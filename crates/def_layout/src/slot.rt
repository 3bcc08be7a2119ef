//! Slots of buffers.

ghost use Rattle.std.proofs.Common.{rules};
ghost use Rattle.std.specs.Cmp.{partial_order_from_own_ties};
ghost use Rattle.std.specs.Cmp.Rules.{comparing};

use std::cmp::Ordering;

/// A slot: a descriptor set, and a binding in it (Vulkan 1.2, 14.5.3). Slots are ordered by set, then by binding.
#[derive(Clone, Copy, Debug)]
pub struct Slot {
    pub set: u32,
    pub binding: u32,
}

/// What a buffer wants: any slot, or this one.
#[derive(Clone, Copy, Debug)]
pub enum Wanted {
    Any,
    At(Slot),
}

impl PartialEq for Slot {
    ghost use Rattle.std.specs.Ordering.{eq_by_cmp};
    ghost use Rattle.def_layout.specs.Slots.{slot_cmp};

    ghost eq = { eq_by_cmp slot_cmp };

    ghost laws = { Prim.search (comparing, rules) };

    fn eq(&self, other: &Slot) -> bool {
        self.cmp(other) == Ordering::Equal
    }
}

impl Eq for Slot {
    ghost laws = { Prim.search (comparing, rules) };
}

impl PartialOrd for Slot {
    ghost use Rattle.std.specs.Ordering.{as_partial_cmp};
    ghost use Rattle.def_layout.specs.Slots.{slot_cmp};

    ghost partial_cmp = { as_partial_cmp slot_cmp };

    ghost laws = { partial_order_from_own_ties (Prim.search (comparing, rules)) (Prim.search (comparing, rules)) };

    fn partial_cmp(&self, other: &Slot) -> Option<Ordering> {
        Some(self.cmp(other))
    }
}

impl Ord for Slot {
    ghost use Rattle.def_layout.specs.Slots.{slot_cmp};

    ghost cmp = { slot_cmp };

    ghost total = { Prim.search (comparing, rules) };

    ghost matches_partial_cmp = { Prim.search (comparing, rules) };

    ghost matches_eq = { Prim.search (comparing, rules) };

    fn cmp(&self, other: &Slot) -> Ordering {
        self.set
            .cmp(&other.set)
            .then(self.binding.cmp(&other.binding))
    }
}
