//! Types of pointers and of what is loaded and stored (SPIR-V 1.5, 3, "Memory Instructions").

ghost use Rattle.std.specs.Prelude.{◌≡◌};
ghost use Rattle.def_valid.specs.Types as types;

use crate::values::{
    class_of, ends_with_array, is_integer_type, is_pointer_type, is_unsigned_type, is_value_type,
    member_count, opcode_of, operand_of, pointee_of, type_of, width_of,
};
use sp_places::Places;
use sp_words::{enumerant, opcode};

#[tactic(auto, unfolding(def_valid::specs::Types::load_typed))]
fn load_typed(places: &Places, place: usize) -> bool
    ensures { result ≡ types.load_typed places.now place }
{
    if places.opcode(place) != opcode::LOAD {
        return true;
    }
    let own = places.operand(place, 0);
    let source = type_of(places, places.operand(place, 2));
    is_value_type(places, own)
        && is_pointer_type(places, source)
        && pointee_of(places, source) == own
}

#[tactic(auto, unfolding(def_valid::specs::Types::store_typed))]
fn store_typed(places: &Places, place: usize) -> bool
    ensures { result ≡ types.store_typed places.now place }
{
    if places.opcode(place) != opcode::STORE {
        return true;
    }
    let target = type_of(places, places.operand(place, 0));
    is_pointer_type(places, target)
        && is_value_type(places, pointee_of(places, target))
        && type_of(places, places.operand(place, 1)) == pointee_of(places, target)
}

/// The type that an index leads to, or 0 where it leads to none.
#[tactic(auto, unfolding(def_valid::specs::Types::indexed_type))]
fn indexed_type(places: &Places, own: u32, index: u32) -> u32
    ensures { result ≡ types.indexed_type places.now own index }
{
    let op = opcode_of(places, own);
    if !is_integer_type(places, type_of(places, index)) {
        0
    } else if op == opcode::TYPE_RUNTIME_ARRAY || op == opcode::TYPE_VECTOR {
        operand_of(places, own, 1)
    } else {
        member_type(places, own, index)
    }
}

/// The number of a constant of one word or two.
#[tactic(auto, unfolding(def_valid::specs::Types::number_of))]
fn number_of(places: &Places, id: u32) -> u64
    ensures { result ≡ types.number_of places.now id }
{
    operand_of(places, id, 2) as u64 + 0x1_0000_0000 * operand_of(places, id, 3) as u64
}

/// The type of a struct's member by a constant, or 0 where it is none.
#[tactic(auto, unfolding(def_valid::specs::Types::member_type))]
fn member_type(places: &Places, own: u32, index: u32) -> u32
    ensures { result ≡ types.member_type places.now own index }
{
    let number = number_of(places, index);
    if opcode_of(places, own) == opcode::TYPE_STRUCT
        && opcode_of(places, index) == opcode::CONSTANT
        && number < member_count(places, own) as u64
    {
        operand_of(places, own, number as usize + 1)
    } else {
        0
    }
}

/// The type that indices lead to.
#[tactic(auto, unfolding(def_valid::specs::Types::reached_type))]
fn reached_type(places: &Places, own: u32, indices: &[u32]) -> u32
    ensures { result ≡ types.reached_type places.now own indices.now }
{
    let mut reached = own;
    let mut rest = indices;
    while let [index, more @ ..] = rest {
        reached = indexed_type(places, reached, *index);
        rest = more;
    }
    reached
}

#[tactic(auto, unfolding(def_valid::specs::Types::chain_typed))]
fn chain_typed(places: &Places, place: usize) -> bool
    ensures { result ≡ types.chain_typed places.now place }
{
    if places.opcode(place) != opcode::ACCESS_CHAIN {
        return true;
    }
    let own = places.operand(place, 0);
    let base = type_of(places, places.operand(place, 2));
    is_pointer_type(places, own)
        && is_pointer_type(places, base)
        && class_of(places, own) == class_of(places, base)
        && reached_type(places, pointee_of(places, base), places.operands(place, 3))
            == pointee_of(places, own)
}

#[tactic(auto, unfolding(def_valid::specs::Types::is_array_member))]
fn is_array_member(places: &Places, own: u32, number: u32) -> bool
    ensures { result ≡ types.is_array_member places.now own number }
{
    opcode_of(places, own) == opcode::TYPE_STRUCT
        && ends_with_array(places, own)
        && number as usize + 1 == member_count(places, own)
}

#[tactic(auto, unfolding(def_valid::specs::Types::length_typed))]
fn length_typed(places: &Places, place: usize) -> bool
    ensures { result ≡ types.length_typed places.now place }
{
    if places.opcode(place) != opcode::ARRAY_LENGTH {
        return true;
    }
    let own = places.operand(place, 0);
    let base = type_of(places, places.operand(place, 2));
    is_unsigned_type(places, own)
        && width_of(places, own) == 32
        && is_pointer_type(places, base)
        && is_array_member(places, pointee_of(places, base), places.operand(place, 3))
}

#[tactic(auto, unfolding(def_valid::specs::Types::variable_typed))]
fn variable_typed(places: &Places, place: usize) -> bool
    ensures { result ≡ types.variable_typed places.now place }
{
    if places.opcode(place) != opcode::VARIABLE {
        return true;
    }
    let own = places.operand(place, 0);
    let class = places.operand(place, 2);
    is_pointer_type(places, own)
        && class_of(places, own) == class
        && (!places.is_inside(place)
            || (class == enumerant::STORAGE_CLASS_FUNCTION
                && is_value_type(places, pointee_of(places, own))))
}

/// Rule 10 of "Memory Instructions".
#[tactic(auto, unfolding(def_valid::specs::Types::pointers_typed))]
pub fn pointers_typed(places: &Places, place: usize) -> bool
    ensures { result ≡ types.pointers_typed places.now place }
{
    load_typed(places, place)
        && store_typed(places, place)
        && chain_typed(places, place)
        && length_typed(places, place)
        && variable_typed(places, place)
}
