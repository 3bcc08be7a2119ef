//! Functions, calls and returns (SPIR-V 1.5, 3, "Function Instructions", "Control-Flow Instructions").

ghost use Rattle.std.specs.Prelude.{◌≡◌, ◌+◌, ◌==◌, true, false, MatchOption};
ghost use Rattle.std.specs.List.{list_all};
ghost use Rattle.def_spirv.specs.Opcodes as opcodes;
ghost use Rattle.def_valid.specs.Places.{opcode_at};
ghost use Rattle.def_valid.specs.Sections as sections;
ghost use Rattle.def_valid.specs.Types as types;

use crate::composites::are_of_types;
use crate::values::{
    is_boolean, is_label, is_pointer_type, is_value, opcode_of, operand_of, type_of,
};
use sp_places::Places;
use sp_words::opcode;

/// The place behind a place, if a parameter stands there.
#[tactic(auto, using(crate::proofs::Past::opcode_past))]
fn parameter_behind(places: &Places, place: usize) -> Option<usize>
    ensures { MatchOption result
        ((opcode_at places.now (place + 1) == opcodes.function_parameter) ≡ false)
        (λ here. (here ≡ place + 1)
        × ((opcode_at places.now (place + 1) == opcodes.function_parameter) ≡ true)) }
{
    if place < places.size() && places.opcode_behind(place) == opcode::FUNCTION_PARAMETER {
        Some(place + 1)
    } else {
        None
    }
}

/// Whether parameters of these types stand behind a place, and no more.
#[tactic(auto, unfolding(def_valid::specs::Types::parameters_are))]
fn parameters_are(places: &Places, place: usize, wanted: &[u32]) -> bool
    ensures { result ≡ types.parameters_are places.now (place + 1) wanted.now }
{
    let mut before = place;
    let mut rest = wanted;
    while let [own, more @ ..] = rest {
        let Some(here) = parameter_behind(places, before) else {
            return false;
        };
        if places.operand(here, 0) != *own {
            return false;
        }
        before = here;
        rest = more;
    }
    parameter_behind(places, before).is_none()
}

#[tactic(auto, unfolding(def_valid::specs::Types::function_typed))]
fn function_typed(places: &Places, place: usize) -> bool
    ensures { result ≡ types.function_typed places.now place }
{
    if places.opcode(place) != opcode::FUNCTION {
        return true;
    }
    let own = places.place(places.operand(place, 3));
    places.opcode(own) == opcode::TYPE_FUNCTION
        && places.operand(own, 1) == places.operand(place, 0)
        && parameters_are(places, place, places.operands(own, 2))
}

fn are_values(places: &Places, ids: &[u32]) -> bool
    ensures { result ≡ list_all (types.is_value places.now) ids.now }
{
    ids.iter().all(|id| is_value(places, *id))
}

#[tactic(auto, unfolding(def_valid::specs::Types::call_typed))]
fn call_typed(places: &Places, place: usize) -> bool
    ensures { result ≡ types.call_typed places.now place }
{
    if places.opcode(place) != opcode::FUNCTION_CALL {
        return true;
    }
    let callee = places.operand(place, 2);
    opcode_of(places, callee) == opcode::FUNCTION
        && operand_of(places, callee, 0) == places.operand(place, 0)
        && are_values(places, places.operands(place, 3))
}

/// Rule 10 of "Function Instructions".
#[tactic(auto, unfolding(def_valid::specs::Types::functions_typed))]
pub fn functions_typed(places: &Places, place: usize) -> bool
    ensures { result ≡ types.functions_typed places.now place }
{
    function_typed(places, place) && call_typed(places, place)
}

#[tactic(auto, unfolding(def_valid::specs::Types::merge_typed))]
fn merge_typed(places: &Places, place: usize) -> bool
    ensures { result ≡ types.merge_typed places.now place }
{
    let op = places.opcode(place);
    (!(op == opcode::LOOP_MERGE || op == opcode::SELECTION_MERGE || op == opcode::BRANCH)
        || is_label(places, places.operand(place, 0)))
        && (op != opcode::LOOP_MERGE || is_label(places, places.operand(place, 1)))
}

#[tactic(auto, unfolding(def_valid::specs::Types::conditional_typed))]
fn conditional_typed(places: &Places, place: usize) -> bool
    ensures { result ≡ types.conditional_typed places.now place }
{
    places.opcode(place) != opcode::BRANCH_CONDITIONAL
        || (is_boolean(places, places.operand(place, 0))
            && is_label(places, places.operand(place, 1))
            && is_label(places, places.operand(place, 2)))
}

#[tactic(auto, unfolding(def_valid::specs::Types::return_typed))]
fn return_typed(places: &Places, place: usize) -> bool
    ensures { result ≡ types.return_typed places.now place }
{
    places.opcode(place) != opcode::RETURN_VALUE || is_value(places, places.operand(place, 0))
}

/// Rule 10 of "Control-Flow Instructions".
#[tactic(auto, unfolding(def_valid::specs::Types::branches_typed))]
pub fn branches_typed(places: &Places, place: usize) -> bool
    ensures { result ≡ types.branches_typed places.now place }
{
    merge_typed(places, place) && conditional_typed(places, place) && return_typed(places, place)
}

/// The function of the first entry point.
#[tactic(auto, unfolding(def_valid::specs::Sections::entry_function))]
pub fn entry_function(places: &Places) -> u32
    ensures { result ≡ sections.entry_function places.now }
{
    places.operand(places.first(opcode::ENTRY_POINT), 1)
}

#[tactic(auto, unfolding(def_valid::specs::Types::is_argument))]
fn is_argument(places: &Places, id: u32) -> bool
    ensures { result ≡ types.is_argument places.now id }
{
    !is_pointer_type(places, type_of(places, id))
        || opcode_of(places, id) == opcode::VARIABLE
        || opcode_of(places, id) == opcode::FUNCTION_PARAMETER
}

fn are_arguments(places: &Places, ids: &[u32]) -> bool
    ensures { result ≡ list_all (types.is_argument places.now) ids.now }
{
    ids.iter().all(|id| is_argument(places, *id))
}

/// Rule 18 on each call, given the function of the entry point.
#[tactic(auto, unfolding(def_valid::specs::Types::arguments_fit))]
pub fn arguments_fit(places: &Places, entry: u32, place: usize) -> bool
    requires { entry ≡ sections.entry_function places.now }
    ensures { result ≡ types.arguments_fit places.now place }
{
    if places.opcode(place) != opcode::FUNCTION_CALL {
        return true;
    }
    let callee = places.operand(place, 2);
    let own = places.place(operand_of(places, callee, 3));
    let ids = places.operands(place, 3);
    callee != entry
        && are_of_types(places, ids, places.operands(own, 2))
        && are_arguments(places, ids)
}

#[tactic(auto, unfolding(def_valid::specs::Types::returned_type))]
fn returned_type(places: &Places, place: usize) -> u32
    ensures { result ≡ types.returned_type places.now place }
{
    places.operand(places.function(place).saturating_sub(1), 0)
}

/// Rule 19.
#[tactic(auto, unfolding(def_valid::specs::Types::returns_fit))]
pub fn returns_fit(places: &Places, place: usize) -> bool
    ensures { result ≡ types.returns_fit places.now place }
{
    let op = places.opcode(place);
    let own = returned_type(places, place);
    (op != opcode::RETURN || opcode_of(places, own) == opcode::TYPE_VOID)
        && (op != opcode::RETURN_VALUE || type_of(places, places.operand(place, 0)) == own)
}
