//! Types of composites (SPIR-V 1.5, 3, "Composite Instructions").

ghost use Rattle.std.specs.Prelude.{◌≡◌};
ghost use Rattle.def_valid.specs.Types as types;

use crate::values::{is_value_type, member_count, opcode_of, operand_of, type_of};
use sp_places::Places;
use sp_words::opcode;

/// Whether ids are values of these types.
#[tactic(auto, unfolding(def_valid::specs::Types::are_of_types))]
pub fn are_of_types(places: &Places, ids: &[u32], wanted: &[u32]) -> bool
    ensures { result ≡ types.are_of_types places.now ids.now wanted.now }
{
    let mut left = ids;
    let mut right = wanted;
    while let [id, more @ ..] = left {
        let [own, others @ ..] = right else {
            return false;
        };
        if type_of(places, *id) != *own {
            return false;
        }
        left = more;
        right = others;
    }
    right.is_empty()
}

#[tactic(auto, unfolding(def_valid::specs::Types::construct_typed))]
fn construct_typed(places: &Places, place: usize) -> bool
    ensures { result ≡ types.construct_typed places.now place }
{
    if places.opcode(place) != opcode::COMPOSITE_CONSTRUCT {
        return true;
    }
    let own = places.operand(place, 0);
    is_value_type(places, own) && parts_typed(places, own, places.operands(place, 2))
}

/// Whether ids are the parts of a struct or of the vector.
#[tactic(auto, unfolding(def_valid::specs::Types::parts_typed))]
fn parts_typed(places: &Places, own: u32, ids: &[u32]) -> bool
    ensures { result ≡ types.parts_typed places.now own ids.now }
{
    let op = opcode_of(places, own);
    if op == opcode::TYPE_STRUCT {
        are_of_types(places, ids, places.operands(places.place(own), 1))
    } else if op == opcode::TYPE_VECTOR {
        let part = operand_of(places, own, 1);
        are_of_types(places, ids, &[part, part, part])
    } else {
        false
    }
}

/// The type of a composite's part, or 0 where there is none.
#[tactic(auto, unfolding(def_valid::specs::Types::part_type))]
fn part_type(places: &Places, own: u32, number: u32) -> u32
    ensures { result ≡ types.part_type places.now own number }
{
    let op = opcode_of(places, own);
    if op == opcode::TYPE_STRUCT && (number as usize) < member_count(places, own) {
        operand_of(places, own, number as usize + 1)
    } else if op == opcode::TYPE_VECTOR && number < 3 {
        operand_of(places, own, 1)
    } else {
        0
    }
}

/// The type that numbers lead to.
#[tactic(auto, unfolding(def_valid::specs::Types::extracted_type))]
fn extracted_type(places: &Places, own: u32, numbers: &[u32]) -> u32
    ensures { result ≡ types.extracted_type places.now own numbers.now }
{
    let mut reached = own;
    let mut rest = numbers;
    while let [number, more @ ..] = rest {
        reached = part_type(places, reached, *number);
        rest = more;
    }
    reached
}

#[tactic(auto, unfolding(def_valid::specs::Types::extract_typed))]
fn extract_typed(places: &Places, place: usize) -> bool
    ensures { result ≡ types.extract_typed places.now place }
{
    if places.opcode(place) != opcode::COMPOSITE_EXTRACT {
        return true;
    }
    let own = places.operand(place, 0);
    let whole = type_of(places, places.operand(place, 2));
    is_value_type(places, own) && extracted_type(places, whole, places.operands(place, 3)) == own
}

/// Rule 10 of "Composite Instructions".
#[tactic(auto, unfolding(def_valid::specs::Types::composites_typed))]
pub fn composites_typed(places: &Places, place: usize) -> bool
    ensures { result ≡ types.composites_typed places.now place }
{
    construct_typed(places, place) && extract_typed(places, place)
}
