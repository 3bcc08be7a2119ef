//! Sections, and what a module declares of itself
//! (SPIR-V 1.5, 2.4, "Logical Layout of a Module", and 2.16, "Validation Rules").

ghost use Rattle.std.specs.Prelude.{◌≡◌};
ghost use Rattle.def_valid.specs.Sections as sections;

use crate::opcodes::{is_constant, is_type, opcode_of, operand_of};
use sp_places::Places;
use sp_words::table::is_known;
use sp_words::{enumerant, opcode};

const FUNCTION_SECTION: u8 = 7;

const INNER_SECTION: u8 = 8;

const NO_SECTION: u8 = 9;

/// The section in which an opcode stands.
#[tactic(auto, unfolding(def_valid::specs::Sections::section_of))]
pub fn section_of(op: u16) -> u8
    ensures { result ≡ sections.section_of op }
{
    if op == opcode::CAPABILITY {
        0
    } else if op == opcode::MEMORY_MODEL {
        1
    } else if op == opcode::ENTRY_POINT {
        2
    } else if op == opcode::EXECUTION_MODE {
        3
    } else if op == opcode::NAME {
        4
    } else {
        late_section(op)
    }
}

#[tactic(auto, unfolding(def_valid::specs::Sections::late_section))]
fn late_section(op: u16) -> u8
    ensures { result ≡ sections.late_section op }
{
    if op == opcode::DECORATE || op == opcode::MEMBER_DECORATE {
        5
    } else if is_type(op) || is_constant(op) || op == opcode::VARIABLE {
        6
    } else if op == opcode::FUNCTION {
        FUNCTION_SECTION
    } else if is_known(op) {
        INNER_SECTION
    } else {
        NO_SECTION
    }
}

/// The section of what stands at a place.
#[tactic(auto, unfolding(def_valid::specs::Sections::section_at))]
pub fn section_at(places: &Places, place: usize) -> u8
    ensures { result ≡ sections.section_at places.now place }
{
    if places.is_inside(place) {
        FUNCTION_SECTION
    } else {
        section_of(places.opcode(place))
    }
}

/// Whether a function has begun right before a place, but for parameters.
#[tactic(auto, unfolding(def_valid::specs::Sections::begins_before))]
pub fn begins_before(places: &Places, place: usize) -> bool
    ensures { result ≡ sections.begins_before places.now place }
{
    let before = places.opcode(place.saturating_sub(1));
    before == opcode::FUNCTION || before == opcode::FUNCTION_PARAMETER
}

#[tactic(auto, unfolding(def_valid::specs::Sections::fits_function))]
fn fits_function(places: &Places, place: usize) -> bool
    ensures { result ≡ sections.fits_function places.now place }
{
    let op = places.opcode(place);
    (section_of(op) == INNER_SECTION || op == opcode::VARIABLE)
        && (op != opcode::FUNCTION_PARAMETER || begins_before(places, place))
        && (op != opcode::FUNCTION_END
            || places.function_before(place) < places.block_before(place))
}

#[tactic(auto, unfolding(def_valid::specs::Sections::fits_section))]
fn fits_section(places: &Places, place: usize) -> bool
    ensures { result ≡ sections.fits_section places.now place }
{
    let section = section_of(places.opcode(place));
    section <= FUNCTION_SECTION
        && (place == 0 || section_at(places, place.saturating_sub(1)) <= section)
}

/// Rule 1: sections stand in order, and functions are whole.
#[tactic(auto, unfolding(def_valid::specs::Sections::sections_stand))]
pub fn sections_stand(places: &Places, place: usize) -> bool
    ensures { result ≡ sections.sections_stand places.now place }
{
    if place == places.size() {
        !places.is_inside(place)
    } else if places.is_inside(place) {
        fits_function(places, place)
    } else {
        fits_section(places, place)
    }
}

#[tactic(auto, unfolding(def_valid::specs::Sections::is_storage_class))]
fn is_storage_class(number: u32) -> bool
    ensures { result ≡ sections.is_storage_class number }
{
    number == enumerant::STORAGE_CLASS_INPUT
        || number == enumerant::STORAGE_CLASS_FUNCTION
        || number == enumerant::STORAGE_CLASS_STORAGE_BUFFER
}

#[tactic(auto, unfolding(def_valid::specs::Sections::capability_numbers))]
fn capability_numbers(places: &Places, place: usize) -> bool
    ensures { result ≡ sections.capability_numbers places.now place }
{
    places.opcode(place) != opcode::CAPABILITY
        || places.operand(place, 0) == enumerant::CAPABILITY_SHADER
}

#[tactic(auto, unfolding(def_valid::specs::Sections::model_numbers))]
fn model_numbers(places: &Places, place: usize) -> bool
    ensures { result ≡ sections.model_numbers places.now place }
{
    places.opcode(place) != opcode::MEMORY_MODEL
        || (places.operand(place, 0) == enumerant::ADDRESSING_MODEL_LOGICAL
            && places.operand(place, 1) == enumerant::MEMORY_MODEL_GLSL450)
}

#[tactic(auto, unfolding(def_valid::specs::Sections::entry_numbers))]
fn entry_numbers(places: &Places, place: usize) -> bool
    ensures { result ≡ sections.entry_numbers places.now place }
{
    places.opcode(place) != opcode::ENTRY_POINT
        || places.operand(place, 0) == enumerant::EXECUTION_MODEL_GL_COMPUTE
}

#[tactic(auto, unfolding(def_valid::specs::Sections::mode_numbers))]
fn mode_numbers(places: &Places, place: usize) -> bool
    ensures { result ≡ sections.mode_numbers places.now place }
{
    places.opcode(place) != opcode::EXECUTION_MODE
        || (places.operand(place, 1) == enumerant::EXECUTION_MODE_LOCAL_SIZE
            && places.operand_count(place) == 5)
}

#[tactic(auto, unfolding(def_valid::specs::Sections::is_bare_decoration))]
fn is_bare_decoration(number: u32) -> bool
    ensures { result ≡ sections.is_bare_decoration number }
{
    number == enumerant::DECORATION_BLOCK || number == enumerant::DECORATION_NON_WRITABLE
}

#[tactic(auto, unfolding(def_valid::specs::Sections::is_numbered_decoration))]
fn is_numbered_decoration(decoration: u32, number: u32) -> bool
    ensures { result ≡ sections.is_numbered_decoration decoration number }
{
    decoration == enumerant::DECORATION_ARRAY_STRIDE
        || decoration == enumerant::DECORATION_BINDING
        || decoration == enumerant::DECORATION_DESCRIPTOR_SET
        || (decoration == enumerant::DECORATION_BUILT_IN
            && number == enumerant::BUILT_IN_GLOBAL_INVOCATION_ID)
}

#[tactic(auto, unfolding(def_valid::specs::Sections::decoration_numbers))]
fn decoration_numbers(places: &Places, place: usize) -> bool
    ensures { result ≡ sections.decoration_numbers places.now place }
{
    let decoration = places.operand(place, 1);
    let count = places.operand_count(place);
    places.opcode(place) != opcode::DECORATE
        || (count == 2 && is_bare_decoration(decoration))
        || (count == 3 && is_numbered_decoration(decoration, places.operand(place, 2)))
}

#[tactic(auto, unfolding(def_valid::specs::Sections::member_numbers))]
fn member_numbers(places: &Places, place: usize) -> bool
    ensures { result ≡ sections.member_numbers places.now place }
{
    places.opcode(place) != opcode::MEMBER_DECORATE
        || (places.operand(place, 2) == enumerant::DECORATION_OFFSET
            && places.operand_count(place) == 4)
}

#[tactic(auto, unfolding(def_valid::specs::Sections::is_width))]
fn is_width(bits: u32) -> bool
    ensures { result ≡ sections.is_width bits }
{
    bits == 32
}

#[tactic(auto, unfolding(def_valid::specs::Sections::integer_numbers))]
fn integer_numbers(places: &Places, place: usize) -> bool
    ensures { result ≡ sections.integer_numbers places.now place }
{
    places.opcode(place) != opcode::TYPE_INT
        || (is_width(places.operand(place, 1)) && places.operand(place, 2) <= 1)
}

#[tactic(auto, unfolding(def_valid::specs::Sections::vector_numbers))]
fn vector_numbers(places: &Places, place: usize) -> bool
    ensures { result ≡ sections.vector_numbers places.now place }
{
    places.opcode(place) != opcode::TYPE_VECTOR || places.operand(place, 2) == 3
}

#[tactic(auto, unfolding(def_valid::specs::Sections::class_numbers))]
fn class_numbers(places: &Places, place: usize) -> bool
    ensures { result ≡ sections.class_numbers places.now place }
{
    let op = places.opcode(place);
    (op != opcode::TYPE_POINTER || is_storage_class(places.operand(place, 1)))
        && (op != opcode::VARIABLE || is_storage_class(places.operand(place, 2)))
}

#[tactic(auto, unfolding(def_valid::specs::Sections::constant_numbers))]
fn constant_numbers(places: &Places, place: usize) -> bool
    ensures { result ≡ sections.constant_numbers places.now place }
{
    places.opcode(place) != opcode::CONSTANT || places.operand_count(place) <= 4
}

#[tactic(auto, unfolding(def_valid::specs::Sections::control_numbers))]
fn control_numbers(places: &Places, place: usize) -> bool
    ensures { result ≡ sections.control_numbers places.now place }
{
    let op = places.opcode(place);
    (!(op == opcode::FUNCTION || op == opcode::LOOP_MERGE) || places.operand(place, 2) == 0)
        && (op != opcode::SELECTION_MERGE || places.operand(place, 1) == 0)
}

#[tactic(auto, unfolding(def_valid::specs::Sections::header_numbers))]
fn header_numbers(places: &Places, place: usize) -> bool
    ensures { result ≡ sections.header_numbers places.now place }
{
    capability_numbers(places, place)
        && model_numbers(places, place)
        && entry_numbers(places, place)
        && mode_numbers(places, place)
        && decoration_numbers(places, place)
        && member_numbers(places, place)
}

#[tactic(auto, unfolding(def_valid::specs::Sections::declaration_numbers))]
fn declaration_numbers(places: &Places, place: usize) -> bool
    ensures { result ≡ sections.declaration_numbers places.now place }
{
    integer_numbers(places, place)
        && vector_numbers(places, place)
        && class_numbers(places, place)
        && constant_numbers(places, place)
        && control_numbers(places, place)
}

#[tactic(auto, unfolding(def_valid::specs::Sections::numbers_fit))]
fn numbers_fit(places: &Places, place: usize) -> bool
    ensures { result ≡ sections.numbers_fit places.now place }
{
    header_numbers(places, place) && declaration_numbers(places, place)
}

/// Rule 2: an instruction has the operands that its opcode takes, with numbers that are in use.
pub fn operands_fit(places: &Places, place: usize) -> bool
    ensures { result ≡ sections.operands_fit places.now place }
{
    places.has_operands(place) && numbers_fit(places, place)
}

/// Rule 5: Shader is declared.
#[tactic(auto, unfolding(def_valid::specs::Sections::shader_declared))]
pub fn shader_declared(places: &Places, place: usize) -> bool
    ensures { result ≡ sections.shader_declared places.now place }
{
    place < places.size() || places.first(opcode::CAPABILITY) < places.size()
}

#[tactic(auto, unfolding(def_valid::specs::Sections::stands_once))]
fn stands_once(places: &Places, op: u16, place: usize) -> bool
    ensures { result ≡ sections.stands_once op places.now place }
{
    if place < places.size() {
        places.opcode(place) != op || places.first(op) == place
    } else {
        places.first(op) < places.size()
    }
}

/// Rule 6: there is one memory model.
pub fn memory_model_once(places: &Places, place: usize) -> bool
    ensures { result ≡ sections.memory_model_once places.now place }
{
    stands_once(places, opcode::MEMORY_MODEL, place)
}

#[tactic(auto, unfolding(def_valid::specs::Sections::entry_function))]
fn entry_function(places: &Places) -> u32
    ensures { result ≡ sections.entry_function places.now }
{
    places.operand(places.first(opcode::ENTRY_POINT), 1)
}

#[tactic(auto, unfolding(def_valid::specs::Sections::is_plain_function))]
fn is_plain_function(places: &Places, id: u32) -> bool
    ensures { result ≡ sections.is_plain_function places.now id }
{
    opcode_of(places, id) == opcode::FUNCTION
        && opcode_of(places, operand_of(places, id, 0)) == opcode::TYPE_VOID
        && places.opcode_behind(places.place(id)) != opcode::FUNCTION_PARAMETER
}

#[tactic(auto, unfolding(def_valid::specs::Sections::is_local_size))]
fn is_local_size(places: &Places, place: usize) -> bool
    ensures { result ≡ sections.is_local_size places.now place }
{
    places.operand(place, 0) == entry_function(places)
        && 0 < places.operand(place, 2)
        && 0 < places.operand(place, 3)
        && 0 < places.operand(place, 4)
}

#[tactic(auto, unfolding(def_valid::specs::Sections::entry_fits))]
fn entry_fits(places: &Places, place: usize) -> bool
    ensures { result ≡ sections.entry_fits places.now place }
{
    places.opcode(place) != opcode::ENTRY_POINT
        || is_plain_function(places, places.operand(place, 1))
}

#[tactic(auto, unfolding(def_valid::specs::Sections::mode_fits))]
fn mode_fits(places: &Places, place: usize) -> bool
    ensures { result ≡ sections.mode_fits places.now place }
{
    places.opcode(place) != opcode::EXECUTION_MODE || is_local_size(places, place)
}

/// Rule 7: there is one entry point, a function without parameters and result, with one LocalSize.
#[tactic(auto, unfolding(def_valid::specs::Sections::entry_point_once))]
pub fn entry_point_once(places: &Places, place: usize) -> bool
    ensures { result ≡ sections.entry_point_once places.now place }
{
    stands_once(places, opcode::ENTRY_POINT, place)
        && stands_once(places, opcode::EXECUTION_MODE, place)
        && entry_fits(places, place)
        && mode_fits(places, place)
}
