//! Merge blocks and continue targets (SPIR-V 1.5, 2.11, "Structured Control Flow").

ghost use Rattle.std.specs.Prelude.{◌≡◌, map, IfOk};
ghost use Rattle.def_valid.specs.Blocks.{continue_target_in, merge_block_in, merges_differ};
ghost use Rattle.def_valid.specs.Places.{instruction_at};
ghost use Rattle.sp_flow.specs.Merges.{IsOf};

use sl_base::NoMemory;
use sp_places::{Index, Places};
use sp_words::opcode;
use std::alloc::Global;

/// Where blocks are named first as merge blocks, and as continue targets.
#[derive(Drop)]
pub struct Merges {
    headers: Index,
    loops: Index,
}

impl Merges {
    /// The merge blocks and continue targets of a module.
    pub fn new(alloc: Global, places: &Places) -> Result<Merges, NoMemory>
        ensures { IfOk result (λ merges. IsOf places.now merges) }
    {
        let headers = Index::new(alloc, merge_blocks(alloc, places)?)?;
        let loops = Index::new(alloc, continue_targets(alloc, places)?)?;
        Ok(Merges { headers, loops })
    }

    /// Rule 16: a merge block belongs to one header, a continue target to one loop.
    #[tactic(auto, unfolding(def_valid::specs::Blocks::merges_differ, def_valid::specs::Blocks::header_of, def_valid::specs::Blocks::loop_of))]
    pub fn differ(&self, places: &Places, place: usize) -> bool
        requires { IsOf places.now self.now }
        ensures { result ≡ merges_differ places.now place }
    {
        let op = places.opcode(place);
        (!(op == opcode::SELECTION_MERGE || op == opcode::LOOP_MERGE)
            || self.headers.first(places.operand(place, 0) as u64) == place)
            && (op != opcode::LOOP_MERGE
                || self.loops.first(places.operand(place, 1) as u64) == place)
    }
}

/// The block that a merge instruction at a place names as its merge block, or 0.
#[tactic(auto, unfolding(def_valid::specs::Blocks::merge_block_in, def_valid::specs::Places::opcode_at, def_valid::specs::Places::operand_at))]
fn merge_block(places: &Places, place: usize) -> u32
    ensures { result ≡ merge_block_in (instruction_at places.now place) }
{
    let op = places.opcode(place);
    if op == opcode::SELECTION_MERGE || op == opcode::LOOP_MERGE {
        places.operand(place, 0)
    } else {
        0
    }
}

/// The block that a merge instruction at a place names as its continue target, or 0.
#[tactic(auto, unfolding(def_valid::specs::Blocks::continue_target_in, def_valid::specs::Places::opcode_at, def_valid::specs::Places::operand_at))]
fn continue_target(places: &Places, place: usize) -> u32
    ensures { result ≡ continue_target_in (instruction_at places.now place) }
{
    if places.opcode(place) == opcode::LOOP_MERGE {
        places.operand(place, 1)
    } else {
        0
    }
}

/// What each instruction names as its merge block, or 0.
fn merge_blocks(alloc: Global, places: &Places) -> Result<Vec<u64>, NoMemory>
    ensures { IfOk result (λ blocks. blocks.items ≡ map merge_block_in places.now.instructions) }
{
    let mut blocks = Vec::new(alloc);
    for place in 0..places.size() {
        blocks.push(merge_block(places, place) as u64)?;
    }
    Ok(blocks)
}

/// What each instruction names as its continue target, or 0.
fn continue_targets(alloc: Global, places: &Places) -> Result<Vec<u64>, NoMemory>
    ensures { IfOk result (λ blocks. blocks.items ≡ map continue_target_in places.now.instructions) }
{
    let mut blocks = Vec::new(alloc);
    for place in 0..places.size() {
        blocks.push(continue_target(places, place) as u64)?;
    }
    Ok(blocks)
}
