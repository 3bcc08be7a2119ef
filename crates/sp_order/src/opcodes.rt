//! What opcodes are for, and the opcodes of what defines an id.

ghost use Rattle.std.specs.Prelude.{◌≡◌};
ghost use Rattle.def_valid.specs.Blocks as blocks;
ghost use Rattle.def_valid.specs.Places.{opcode_of, operand_of};
ghost use Rattle.def_valid.specs.Sections as sections;

use sp_places::Places;
use sp_words::opcode;

/// Whether instructions of an opcode declare types.
#[tactic(auto, unfolding(def_valid::specs::Sections::is_type))]
pub fn is_type(op: u16) -> bool
    ensures { result ≡ sections.is_type op }
{
    op == opcode::TYPE_VOID
        || op == opcode::TYPE_BOOL
        || op == opcode::TYPE_INT
        || op == opcode::TYPE_VECTOR
        || op == opcode::TYPE_RUNTIME_ARRAY
        || op == opcode::TYPE_STRUCT
        || op == opcode::TYPE_POINTER
        || op == opcode::TYPE_FUNCTION
}

/// Whether instructions of an opcode make constants.
#[tactic(auto, unfolding(def_valid::specs::Sections::is_constant))]
pub fn is_constant(op: u16) -> bool
    ensures { result ≡ sections.is_constant op }
{
    op == opcode::CONSTANT_TRUE
        || op == opcode::CONSTANT_FALSE
        || op == opcode::CONSTANT
        || op == opcode::CONSTANT_NULL
}

/// Whether instructions of an opcode end blocks.
#[tactic(auto, unfolding(def_valid::specs::Blocks::is_termination))]
pub fn is_termination(op: u16) -> bool
    ensures { result ≡ blocks.is_termination op }
{
    op == opcode::BRANCH
        || op == opcode::BRANCH_CONDITIONAL
        || op == opcode::RETURN
        || op == opcode::RETURN_VALUE
}

/// The opcode of what defines an id.
pub fn opcode_of(places: &Places, id: u32) -> u16
    ensures { result ≡ opcode_of places.now id }
{
    places.opcode(places.place(id))
}

/// An operand of what defines an id.
pub fn operand_of(places: &Places, id: u32, number: usize) -> u32
    ensures { result ≡ operand_of places.now id number }
{
    places.operand(places.place(id), number)
}
