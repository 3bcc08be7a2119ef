//! Declarations of types (SPIR-V 1.5, 3, "Type-Declaration Instructions").

ghost use Rattle.std.specs.Prelude.{◌≡◌};
ghost use Rattle.std.specs.List.{list_all};
ghost use Rattle.def_valid.specs.Sections.{is_type};
ghost use Rattle.def_valid.specs.Types as types;

use crate::values::{
    class_of, is_boolean_type, is_integer_type, is_pointer_type, is_value_type, opcode_of,
};
use sp_places::Places;
use sp_words::{enumerant, opcode};

/// Whether instructions of an opcode declare types.
#[tactic(auto, unfolding(def_valid::specs::Sections::is_type))]
pub fn is_type(op: u16) -> bool
    ensures { result ≡ is_type op }
{
    op == opcode::TYPE_VOID
        || op == opcode::TYPE_BOOL
        || op == opcode::TYPE_INT
        || op == opcode::TYPE_VECTOR
        || op == opcode::TYPE_RUNTIME_ARRAY
        || op == opcode::TYPE_STRUCT
        || op == opcode::TYPE_POINTER
        || op == opcode::TYPE_FUNCTION
}

#[tactic(auto, unfolding(def_valid::specs::Types::is_parameter_type))]
fn is_parameter_type(places: &Places, id: u32) -> bool
    ensures { result ≡ types.is_parameter_type places.now id }
{
    is_value_type(places, id)
        || (is_pointer_type(places, id)
            && class_of(places, id) == enumerant::STORAGE_CLASS_FUNCTION)
}

fn are_parameter_types(places: &Places, ids: &[u32]) -> bool
    ensures { result ≡ list_all (types.is_parameter_type places.now) ids.now }
{
    ids.iter().all(|id| is_parameter_type(places, *id))
}

#[tactic(auto, unfolding(def_valid::specs::Types::is_last_type))]
fn is_last_type(places: &Places, id: u32) -> bool
    ensures { result ≡ types.is_last_type places.now id }
{
    is_value_type(places, id) || opcode_of(places, id) == opcode::TYPE_RUNTIME_ARRAY
}

fn are_last_types(places: &Places, ids: &[u32]) -> bool
    ensures { result ≡ list_all (types.is_last_type places.now) ids.now }
{
    ids.iter().all(|id| is_last_type(places, *id))
}

fn are_value_types(places: &Places, ids: &[u32]) -> bool
    ensures { result ≡ list_all (types.is_value_type places.now) ids.now }
{
    ids.iter().all(|id| is_value_type(places, *id))
}

/// Whether a struct may have these members.
#[tactic(auto, unfolding(def_valid::specs::Types::members_typed))]
fn members_typed(places: &Places, ids: &[u32]) -> bool
    ensures { result ≡ types.members_typed places.now ids.now }
{
    let (front, last) = ids.split_at(ids.len().saturating_sub(1));
    are_value_types(places, front) && are_last_types(places, last)
}

#[tactic(auto, unfolding(def_valid::specs::Types::is_pointee))]
fn is_pointee(places: &Places, id: u32) -> bool
    ensures { result ≡ types.is_pointee places.now id }
{
    let op = opcode_of(places, id);
    is_type(op)
        && op != opcode::TYPE_VOID
        && !is_pointer_type(places, id)
        && op != opcode::TYPE_FUNCTION
}

#[tactic(auto, unfolding(def_valid::specs::Types::vector_typed))]
fn vector_typed(places: &Places, place: usize) -> bool
    ensures { result ≡ types.vector_typed places.now place }
{
    if places.opcode(place) != opcode::TYPE_VECTOR {
        return true;
    }
    let part = places.operand(place, 1);
    is_boolean_type(places, part) || is_integer_type(places, part)
}

#[tactic(auto, unfolding(def_valid::specs::Types::array_typed))]
fn array_typed(places: &Places, place: usize) -> bool
    ensures { result ≡ types.array_typed places.now place }
{
    places.opcode(place) != opcode::TYPE_RUNTIME_ARRAY
        || is_value_type(places, places.operand(place, 1))
}

#[tactic(auto, unfolding(def_valid::specs::Types::struct_typed))]
fn struct_typed(places: &Places, place: usize) -> bool
    ensures { result ≡ types.struct_typed places.now place }
{
    places.opcode(place) != opcode::TYPE_STRUCT || members_typed(places, places.operands(place, 1))
}

#[tactic(auto, unfolding(def_valid::specs::Types::pointer_typed))]
fn pointer_typed(places: &Places, place: usize) -> bool
    ensures { result ≡ types.pointer_typed places.now place }
{
    places.opcode(place) != opcode::TYPE_POINTER || is_pointee(places, places.operand(place, 2))
}

#[tactic(auto, unfolding(def_valid::specs::Types::signature_typed))]
fn signature_typed(places: &Places, place: usize) -> bool
    ensures { result ≡ types.signature_typed places.now place }
{
    if places.opcode(place) != opcode::TYPE_FUNCTION {
        return true;
    }
    let returned = places.operand(place, 1);
    (opcode_of(places, returned) == opcode::TYPE_VOID || is_value_type(places, returned))
        && are_parameter_types(places, places.operands(place, 2))
}

/// Rule 10 of "Type-Declaration Instructions".
#[tactic(auto, unfolding(def_valid::specs::Types::declarations_typed))]
pub fn declarations_typed(places: &Places, place: usize) -> bool
    ensures { result ≡ types.declarations_typed places.now place }
{
    vector_typed(places, place)
        && array_typed(places, place)
        && struct_typed(places, place)
        && pointer_typed(places, place)
        && signature_typed(places, place)
}
