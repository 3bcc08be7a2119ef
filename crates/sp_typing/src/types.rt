//! Rules 10 and 11: types fit.

ghost use Rattle.std.specs.Prelude.{◌≡◌};
ghost use Rattle.def_valid.specs.Types as types;

use crate::composites::composites_typed;
use crate::declarations::declarations_typed;
use crate::functions::{branches_typed, functions_typed};
use crate::pointers::pointers_typed;
use crate::values::{
    booleans_typed, integers_typed, is_boolean_type, is_integer_type, is_value_type, width_of,
};
use sp_places::Places;
use sp_words::opcode;

/// Rule 10: operands and results have the types that the opcode asks.
#[tactic(auto, unfolding(def_valid::specs::Types::types_fit))]
pub fn types_fit(places: &Places, place: usize) -> bool
    ensures { result ≡ types.types_fit places.now place }
{
    integers_typed(places, place)
        && booleans_typed(places, place)
        && composites_typed(places, place)
        && pointers_typed(places, place)
        && declarations_typed(places, place)
        && functions_typed(places, place)
        && branches_typed(places, place)
}

#[tactic(auto, unfolding(def_valid::specs::Types::truth_typed))]
fn truth_typed(places: &Places, place: usize) -> bool
    ensures { result ≡ types.truth_typed places.now place }
{
    let op = places.opcode(place);
    if !(op == opcode::CONSTANT_TRUE || op == opcode::CONSTANT_FALSE) {
        return true;
    }
    is_boolean_type(places, places.operand(place, 0))
}

#[tactic(auto, unfolding(def_valid::specs::Types::number_typed))]
fn number_typed(places: &Places, place: usize) -> bool
    ensures { result ≡ types.number_typed places.now place }
{
    if places.opcode(place) != opcode::CONSTANT {
        return true;
    }
    let own = places.operand(place, 0);
    is_integer_type(places, own)
        && places.operand_count(place) == 2 + width_of(places, own) as usize / 32
}

#[tactic(auto, unfolding(def_valid::specs::Types::null_typed))]
fn null_typed(places: &Places, place: usize) -> bool
    ensures { result ≡ types.null_typed places.now place }
{
    places.opcode(place) != opcode::CONSTANT_NULL || is_value_type(places, places.operand(place, 0))
}

/// Rule 11: a constant has a type that fits it.
#[tactic(auto, unfolding(def_valid::specs::Types::constants_fit))]
pub fn constants_fit(places: &Places, place: usize) -> bool
    ensures { result ≡ types.constants_fit places.now place }
{
    truth_typed(places, place) && number_typed(places, place) && null_typed(places, place)
}
