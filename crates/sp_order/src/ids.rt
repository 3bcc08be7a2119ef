//! Ids: that they are defined once, before they are used, and that a type has one id
//! (SPIR-V 1.5, 2.16.1, "Universal Validation Rules", and 2.8, "Types and Variables").

ghost use Rattle.std.specs.Prelude.{◌≡◌};
ghost use Rattle.std.specs.List.{list_all};
ghost use Rattle.def_valid.specs.Ids as ids;

use crate::opcodes::opcode_of;
use crate::sections::section_at;
use sp_places::Places;
use sp_words::opcode;

#[tactic(auto, unfolding(def_valid::specs::Ids::is_defined))]
fn is_defined(places: &Places, id: u32) -> bool
    ensures { result ≡ ids.is_defined places.now id }
{
    0 < id && id < places.bound() && places.place(id) < places.size()
}

fn are_defined(places: &Places, uses: &[u32]) -> bool
    ensures { result ≡ list_all (ids.is_defined places.now) uses.now }
{
    uses.iter().all(|id| is_defined(places, *id))
}

#[tactic(auto, unfolding(def_valid::specs::Ids::defines_once))]
fn defines_once(places: &Places, place: usize) -> bool
    ensures { result ≡ ids.defines_once places.now place }
{
    let id = places.result(place);
    !places.has_result(place) || (0 < id && id < places.bound() && places.place(id) == place)
}

/// Rule 3: ids are from 1 and below the bound, each is defined once, and what is used is defined.
#[tactic(auto, unfolding(def_valid::specs::Ids::ids_defined))]
pub fn ids_defined(places: &Places, place: usize) -> bool
    ensures { result ≡ ids.ids_defined places.now place }
{
    defines_once(places, place) && are_defined(places, places.uses(place))
}

#[tactic(auto, unfolding(def_valid::specs::Ids::in_first_block))]
fn in_first_block(places: &Places, place: usize) -> bool
    ensures { result ≡ ids.in_first_block places.now place }
{
    let function = places.function(place);
    let block = places.block(place);
    function < block && places.block_before(block.saturating_sub(1)) <= function
}

#[tactic(auto, unfolding(def_valid::specs::Ids::reaches_inside))]
fn reaches_inside(places: &Places, from: usize, place: usize) -> bool
    ensures { result ≡ ids.reaches_inside places.now from place }
{
    let op = places.opcode(from);
    places.function(from) == places.function(place)
        && from < place
        && (op == opcode::VARIABLE
            || (if op == opcode::FUNCTION_PARAMETER {
                opcode_of(places, places.operand(from, 0)) == opcode::TYPE_POINTER
                    || in_first_block(places, place)
            } else {
                places.block(from) == places.block(place)
            }))
}

#[tactic(auto, unfolding(def_valid::specs::Ids::reaches))]
fn reaches(places: &Places, place: usize, id: u32) -> bool
    ensures { result ≡ ids.reaches places.now place id }
{
    let from = places.place(id);
    let op = places.opcode(from);
    op == opcode::FUNCTION
        || op == opcode::LABEL
        || (if places.is_inside(from) {
            reaches_inside(places, from, place)
        } else {
            from < place
        })
}

fn all_reach(places: &Places, place: usize, uses: &[u32]) -> bool
    ensures { result ≡ list_all (ids.reaches places.now place) uses.now }
{
    uses.iter().all(|id| reaches(places, place, *id))
}

/// Rule 4: in the types section and in functions an id is used where its definition reaches.
#[tactic(auto, unfolding(def_valid::specs::Ids::defined_before))]
pub fn defined_before(places: &Places, place: usize) -> bool
    ensures { result ≡ ids.defined_before places.now place }
{
    section_at(places, place) <= 5 || all_reach(places, place, places.uses(place))
}
