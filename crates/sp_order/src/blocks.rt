//! Blocks and merge instructions (SPIR-V 1.5, 2.11, "Structured Control Flow").

ghost use Rattle.std.specs.Prelude.{◌≡◌};
ghost use Rattle.def_valid.specs.Blocks as blocks;

use crate::opcodes::is_termination;
use crate::sections::begins_before;
use sp_places::Places;
use sp_words::opcode;

#[tactic(auto, unfolding(def_valid::specs::Blocks::is_leading))]
fn is_leading(places: &Places, place: usize) -> bool
    ensures { result ≡ blocks.is_leading places.now place }
{
    let before = place.saturating_sub(1);
    places.opcode(before) == opcode::VARIABLE
        || (places.opcode(before) == opcode::LABEL && begins_before(places, before))
}

#[tactic(auto, unfolding(def_valid::specs::Blocks::fits_block))]
fn fits_block(places: &Places, place: usize) -> bool
    ensures { result ≡ blocks.fits_block places.now place }
{
    let op = places.opcode(place);
    let ended = is_termination(places.opcode(place.saturating_sub(1)));
    if op == opcode::LABEL {
        ended || begins_before(places, place)
    } else if op == opcode::FUNCTION_END {
        ended
    } else {
        !ended
            && !begins_before(places, place)
            && (op != opcode::VARIABLE || is_leading(places, place))
    }
}

/// Rule 13: a block begins with a label and ends in one branch or return; variables come first in
/// the first block.
#[tactic(auto, unfolding(def_valid::specs::Blocks::blocks_whole))]
pub fn blocks_whole(places: &Places, place: usize) -> bool
    ensures { result ≡ blocks.blocks_whole places.now place }
{
    !places.is_inside(place)
        || places.opcode(place) == opcode::FUNCTION_PARAMETER
        || fits_block(places, place)
}

#[tactic(auto, unfolding(def_valid::specs::Blocks::is_entry_block))]
fn is_entry_block(places: &Places, place: usize, id: u32) -> bool
    ensures { result ≡ blocks.is_entry_block places.now place id }
{
    let label = places.place(id);
    begins_before(places, label)
        && places.opcode(label) == opcode::LABEL
        && places.function(label) == places.function(place)
}

/// Rule 14: no branch goes to a function's first block.
#[tactic(auto, unfolding(def_valid::specs::Blocks::entry_block_free, def_valid::specs::Blocks::targets_at))]
pub fn entry_block_free(places: &Places, place: usize) -> bool
    ensures { result ≡ blocks.entry_block_free places.now place }
{
    let op = places.opcode(place);
    if op == opcode::BRANCH {
        !is_entry_block(places, place, places.operand(place, 0))
    } else if op == opcode::BRANCH_CONDITIONAL {
        !is_entry_block(places, place, places.operand(place, 1))
            && !is_entry_block(places, place, places.operand(place, 2))
    } else {
        true
    }
}

/// Rule 15: a merge instruction stands immediately before a branch.
#[tactic(auto, unfolding(def_valid::specs::Blocks::merges_before_branches))]
pub fn merges_before_branches(places: &Places, place: usize) -> bool
    ensures { result ≡ blocks.merges_before_branches places.now place }
{
    let op = places.opcode(place);
    let next = places.opcode_behind(place);
    (op != opcode::SELECTION_MERGE || next == opcode::BRANCH_CONDITIONAL)
        && (op != opcode::LOOP_MERGE
            || next == opcode::BRANCH
            || next == opcode::BRANCH_CONDITIONAL)
}
