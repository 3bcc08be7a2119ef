//! Types, values, and operators on them (SPIR-V 1.5, 2.2.2, "Types", and 3, "Instructions").

ghost use Rattle.std.specs.Prelude.{◌≡◌};
ghost use Rattle.def_valid.specs.Places.{opcode_of, operand_of};
ghost use Rattle.def_valid.specs.Types as types;

use sp_places::Places;
use sp_words::opcode;

/// The opcode of what defines an id.
pub fn opcode_of(places: &Places, id: u32) -> u16
    ensures { result ≡ opcode_of places.now id }
{
    places.opcode(places.place(id))
}

/// An operand of what defines an id.
pub fn operand_of(places: &Places, id: u32, number: usize) -> u32
    ensures { result ≡ operand_of places.now id number }
{
    places.operand(places.place(id), number)
}

/// The type of a value, or 0 where an id is no value.
#[tactic(auto, unfolding(def_valid::specs::Types::type_of))]
pub fn type_of(places: &Places, id: u32) -> u32
    ensures { result ≡ types.type_of places.now id }
{
    let place = places.place(id);
    if places.opcode(place) == opcode::FUNCTION {
        0
    } else {
        places.result_type(place)
    }
}

/// Whether an id is a boolean type.
pub fn is_boolean_type(places: &Places, id: u32) -> bool
    ensures { result ≡ types.is_boolean_type places.now id }
{
    opcode_of(places, id) == opcode::TYPE_BOOL
}

/// Whether an id is an integer type.
pub fn is_integer_type(places: &Places, id: u32) -> bool
    ensures { result ≡ types.is_integer_type places.now id }
{
    opcode_of(places, id) == opcode::TYPE_INT
}

/// Whether an id is a pointer type.
pub fn is_pointer_type(places: &Places, id: u32) -> bool
    ensures { result ≡ types.is_pointer_type places.now id }
{
    opcode_of(places, id) == opcode::TYPE_POINTER
}

/// The width of an integer type in bits.
pub fn width_of(places: &Places, id: u32) -> u32
    ensures { result ≡ types.width_of places.now id }
{
    operand_of(places, id, 1)
}

/// Whether an id is an unsigned integer type.
#[tactic(auto, unfolding(def_valid::specs::Types::is_unsigned_type))]
pub fn is_unsigned_type(places: &Places, id: u32) -> bool
    ensures { result ≡ types.is_unsigned_type places.now id }
{
    is_integer_type(places, id) && operand_of(places, id, 2) == 0
}

/// How many members a struct type has.
#[tactic(auto, unfolding(def_valid::specs::Types::member_count))]
pub fn member_count(places: &Places, id: u32) -> usize
    ensures { result ≡ types.member_count places.now id }
{
    places.operand_count(places.place(id)).saturating_sub(1)
}

/// Whether a struct type ends with a runtime array.
#[tactic(auto, unfolding(def_valid::specs::Types::ends_with_array))]
pub fn ends_with_array(places: &Places, id: u32) -> bool
    ensures { result ≡ types.ends_with_array places.now id }
{
    let last = operand_of(places, id, member_count(places, id));
    opcode_of(places, last) == opcode::TYPE_RUNTIME_ARRAY
}

/// Whether values of a type are stored and loaded as wholes.
#[tactic(auto, unfolding(def_valid::specs::Types::is_value_type))]
pub fn is_value_type(places: &Places, id: u32) -> bool
    ensures { result ≡ types.is_value_type places.now id }
{
    is_boolean_type(places, id)
        || is_integer_type(places, id)
        || opcode_of(places, id) == opcode::TYPE_VECTOR
        || (opcode_of(places, id) == opcode::TYPE_STRUCT && !ends_with_array(places, id))
}

/// The storage class of a pointer type.
pub fn class_of(places: &Places, id: u32) -> u32
    ensures { result ≡ types.class_of places.now id }
{
    operand_of(places, id, 1)
}

/// The type to which a pointer type points.
pub fn pointee_of(places: &Places, id: u32) -> u32
    ensures { result ≡ types.pointee_of places.now id }
{
    operand_of(places, id, 2)
}

/// Whether an id is a boolean.
#[tactic(auto, unfolding(def_valid::specs::Types::is_boolean))]
pub fn is_boolean(places: &Places, id: u32) -> bool
    ensures { result ≡ types.is_boolean places.now id }
{
    is_boolean_type(places, type_of(places, id))
}

/// Whether an id is an integer of a type's width.
#[tactic(auto, unfolding(def_valid::specs::Types::is_integer_like))]
pub fn is_integer_like(places: &Places, like: u32, id: u32) -> bool
    ensures { result ≡ types.is_integer_like places.now like id }
{
    let own = type_of(places, id);
    is_integer_type(places, own) && width_of(places, own) == width_of(places, like)
}

/// Whether an id is a value.
#[tactic(auto, unfolding(def_valid::specs::Types::is_value))]
pub fn is_value(places: &Places, id: u32) -> bool
    ensures { result ≡ types.is_value places.now id }
{
    0 < type_of(places, id)
}

/// Whether an id is a label.
pub fn is_label(places: &Places, id: u32) -> bool
    ensures { result ≡ types.is_label places.now id }
{
    opcode_of(places, id) == opcode::LABEL
}

#[tactic(auto, unfolding(def_valid::specs::Types::is_unary))]
fn is_unary(op: u16) -> bool
    ensures { result ≡ types.is_unary op }
{
    op == opcode::BITCAST || op == opcode::SIGNED_NEGATE || op == opcode::BITWISE_NOT
}

#[tactic(auto, unfolding(def_valid::specs::Types::is_binary))]
fn is_binary(op: u16) -> bool
    ensures { result ≡ types.is_binary op }
{
    op == opcode::INTEGER_ADD
        || op == opcode::INTEGER_SUBTRACT
        || op == opcode::INTEGER_MULTIPLY
        || op == opcode::SIGNED_DIVIDE
        || op == opcode::SIGNED_REMAINDER
        || (opcode::SHIFT_RIGHT_LOGICAL <= op && op <= opcode::BITWISE_AND)
}

#[tactic(auto, unfolding(def_valid::specs::Types::unary_typed))]
fn unary_typed(places: &Places, place: usize) -> bool
    ensures { result ≡ types.unary_typed places.now place }
{
    if !is_unary(places.opcode(place)) {
        return true;
    }
    let own = places.operand(place, 0);
    is_integer_type(places, own) && is_integer_like(places, own, places.operand(place, 2))
}

#[tactic(auto, unfolding(def_valid::specs::Types::binary_typed))]
fn binary_typed(places: &Places, place: usize) -> bool
    ensures { result ≡ types.binary_typed places.now place }
{
    if !is_binary(places.opcode(place)) {
        return true;
    }
    let own = places.operand(place, 0);
    is_integer_type(places, own)
        && is_integer_like(places, own, places.operand(place, 2))
        && is_integer_like(places, own, places.operand(place, 3))
}

#[tactic(auto, unfolding(def_valid::specs::Types::unsigned_typed))]
fn unsigned_typed(places: &Places, place: usize) -> bool
    ensures { result ≡ types.unsigned_typed places.now place }
{
    let op = places.opcode(place);
    if !(op == opcode::UNSIGNED_DIVIDE || op == opcode::UNSIGNED_MODULO) {
        return true;
    }
    let own = places.operand(place, 0);
    is_unsigned_type(places, own)
        && type_of(places, places.operand(place, 2)) == own
        && type_of(places, places.operand(place, 3)) == own
}

/// Rule 10 of "Conversion Instructions", "Arithmetic Instructions" and "Bit Instructions".
#[tactic(auto, unfolding(def_valid::specs::Types::integers_typed))]
pub fn integers_typed(places: &Places, place: usize) -> bool
    ensures { result ≡ types.integers_typed places.now place }
{
    unary_typed(places, place) && binary_typed(places, place) && unsigned_typed(places, place)
}

#[tactic(auto, unfolding(def_valid::specs::Types::comparisons_typed))]
fn comparisons_typed(places: &Places, place: usize) -> bool
    ensures { result ≡ types.comparisons_typed places.now place }
{
    let op = places.opcode(place);
    if !(opcode::INTEGER_EQUAL <= op && op <= opcode::SIGNED_LESS_THAN_EQUAL) {
        return true;
    }
    let left = type_of(places, places.operand(place, 2));
    is_boolean_type(places, places.operand(place, 0))
        && is_integer_type(places, left)
        && is_integer_like(places, left, places.operand(place, 3))
}

#[tactic(auto, unfolding(def_valid::specs::Types::logical_typed))]
fn logical_typed(places: &Places, place: usize) -> bool
    ensures { result ≡ types.logical_typed places.now place }
{
    let op = places.opcode(place);
    if !(opcode::LOGICAL_EQUAL <= op && op <= opcode::LOGICAL_AND) {
        return true;
    }
    is_boolean_type(places, places.operand(place, 0))
        && is_boolean(places, places.operand(place, 2))
        && is_boolean(places, places.operand(place, 3))
}

#[tactic(auto, unfolding(def_valid::specs::Types::not_typed))]
fn not_typed(places: &Places, place: usize) -> bool
    ensures { result ≡ types.not_typed places.now place }
{
    places.opcode(place) != opcode::LOGICAL_NOT
        || (is_boolean_type(places, places.operand(place, 0))
            && is_boolean(places, places.operand(place, 2)))
}

#[tactic(auto, unfolding(def_valid::specs::Types::select_typed))]
fn select_typed(places: &Places, place: usize) -> bool
    ensures { result ≡ types.select_typed places.now place }
{
    if places.opcode(place) != opcode::SELECT {
        return true;
    }
    let own = places.operand(place, 0);
    is_value_type(places, own)
        && is_boolean(places, places.operand(place, 2))
        && type_of(places, places.operand(place, 3)) == own
        && type_of(places, places.operand(place, 4)) == own
}

/// Rule 10 of "Relational and Logical Instructions".
#[tactic(auto, unfolding(def_valid::specs::Types::booleans_typed))]
pub fn booleans_typed(places: &Places, place: usize) -> bool
    ensures { result ≡ types.booleans_typed places.now place }
{
    comparisons_typed(places, place)
        && logical_typed(places, place)
        && not_typed(places, place)
        && select_typed(places, place)
}
