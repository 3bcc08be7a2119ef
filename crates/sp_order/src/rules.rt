//! Rules that are tests at a place, and the first place at which one is broken.

ghost use Rattle.std.specs.Prelude.{◌≡◌, MatchOption};
ghost use Rattle.def_valid.specs.Valid.{HoldsThroughout};
ghost use Rattle.sp_order.specs.Rules.{IsFirstBreak, test_of};

use crate::blocks::{blocks_whole, entry_block_free, merges_before_branches};
use crate::ids::{defined_before, ids_defined};
use crate::sections::{
    entry_point_once, memory_model_once, operands_fit, sections_stand, shader_declared,
};
use sp_places::Places;

/// A rule that is a test at a place.
#[derive(Clone, Copy)]
pub enum Rule {
    /// Sections stand in order, and functions are whole.
    Layout,
    /// Instructions have operands that fit them.
    Operands,
    /// Ids are in range, defined once, and defined if they are used.
    Definitions,
    /// Ids are used where their definitions reach.
    Uses,
    /// Shader is declared.
    Capability,
    /// There is one memory model.
    MemoryModel,
    /// There is one entry point, with one LocalSize.
    EntryPoint,
    /// Blocks begin with a label and end in one branch or return.
    Blocks,
    /// No branch goes to a function's first block.
    EntryBlocks,
    /// A merge instruction stands immediately before a branch.
    Merges,
}

impl Rule {
    /// Whether the rule holds at a place.
    pub fn holds(self, places: &Places, place: usize) -> bool
        ensures { result ≡ test_of self places.now place }
    {
        match self {
            Rule::Layout => sections_stand(places, place),
            Rule::Operands => operands_fit(places, place),
            Rule::Definitions => ids_defined(places, place),
            Rule::Uses => defined_before(places, place),
            Rule::Capability => shader_declared(places, place),
            Rule::MemoryModel => memory_model_once(places, place),
            Rule::EntryPoint => entry_point_once(places, place),
            Rule::Blocks => blocks_whole(places, place),
            Rule::EntryBlocks => entry_block_free(places, place),
            Rule::Merges => merges_before_branches(places, place),
        }
    }
}

/// The first place at which a rule is broken, if there is one; the number of instructions where
/// something is missing.
pub fn first_break(places: &Places, rule: Rule) -> Option<usize>
    ensures { MatchOption result (HoldsThroughout (test_of rule) places.now)
        (λ k. IsFirstBreak (test_of rule) places.now k) }
{
    for place in 0..places.size() {
        if !rule.holds(places, place) {
            return Some(place);
        }
    }
    let end = places.size();
    if rule.holds(places, end) {
        None
    } else {
        Some(end)
    }
}
