//! The instructions in use as a table: of each opcode, which operands its instructions have
//! (the titles are those of sections of SPIR-V 1.5, 3, "Binary Form").

ghost use Rattle.std.specs.Prelude.{◌≡◌, ◌==◌, find, map};
ghost use Rattle.std.specs.Option.{option_copied, option_map};
ghost use Rattle.def_spirv.specs.Table.{is_known, kinds_of};
ghost use Rattle.sp_words.specs.View.{entry_of, kind_of, kinds_among};

use crate::opcode;

/// An enumeration that a word may be of, named by the title of its section.
#[derive(Debug, Clone, Copy, PartialEq, Eq)]
pub enum Enumeration {
    ExecutionModel,
    AddressingModel,
    MemoryModel,
    ExecutionMode,
    StorageClass,
    SelectionControl,
    LoopControl,
    FunctionControl,
    Decoration,
    Capability,
}

/// What a word is (SPIR-V 1.5, 2.2.1, "Instructions").
#[derive(Debug, Clone, Copy, PartialEq, Eq)]
pub enum Role {
    /// The id of the result's type.
    ResultType,
    /// The id that the instruction defines.
    Result,
    /// An id that is defined elsewhere.
    Reference,
    /// A literal number.
    LiteralNumber,
    /// A number of an enumeration.
    Enumerant(Enumeration),
}

/// What stands at an operand's place.
#[derive(Debug, Clone, Copy, PartialEq, Eq)]
pub enum Kind {
    /// One word.
    One(Role),
    /// A string: its bytes, a zero byte and zero padding.
    LiteralString,
    /// None or more words up to the instruction's end.
    Rest(Role),
}

/// An opcode, and what its instructions have behind it.
type Entry = (u16, &'static [Kind]);

const TYPE: Kind = Kind::One(Role::ResultType);

const RESULT: Kind = Kind::One(Role::Result);

const REFERENCE: Kind = Kind::One(Role::Reference);

const REFERENCES: Kind = Kind::Rest(Role::Reference);

const NUMBER: Kind = Kind::One(Role::LiteralNumber);

const NUMBERS: Kind = Kind::Rest(Role::LiteralNumber);

const EXECUTION_MODEL: Kind = Kind::One(Role::Enumerant(Enumeration::ExecutionModel));

const ADDRESSING_MODEL: Kind = Kind::One(Role::Enumerant(Enumeration::AddressingModel));

const MEMORY_MODEL: Kind = Kind::One(Role::Enumerant(Enumeration::MemoryModel));

const EXECUTION_MODE: Kind = Kind::One(Role::Enumerant(Enumeration::ExecutionMode));

const STORAGE_CLASS: Kind = Kind::One(Role::Enumerant(Enumeration::StorageClass));

const SELECTION_CONTROL: Kind = Kind::One(Role::Enumerant(Enumeration::SelectionControl));

const LOOP_CONTROL: Kind = Kind::One(Role::Enumerant(Enumeration::LoopControl));

const FUNCTION_CONTROL: Kind = Kind::One(Role::Enumerant(Enumeration::FunctionControl));

const DECORATION: Kind = Kind::One(Role::Enumerant(Enumeration::Decoration));

const CAPABILITY: Kind = Kind::One(Role::Enumerant(Enumeration::Capability));

/// A value made from another.
const UNARY: &[Kind] = &[TYPE, RESULT, REFERENCE];

/// A value made from two.
const BINARY: &[Kind] = &[TYPE, RESULT, REFERENCE, REFERENCE];

/// A value made from three.
const TERNARY: &[Kind] = &[TYPE, RESULT, REFERENCE, REFERENCE, REFERENCE];

const TABLE: [Entry; 69] = [
    // "Debug Instructions"
    (opcode::NAME, &[REFERENCE, Kind::LiteralString]),
    // "Annotation Instructions"
    (opcode::DECORATE, &[REFERENCE, DECORATION, NUMBERS]),
    (
        opcode::MEMBER_DECORATE,
        &[REFERENCE, NUMBER, DECORATION, NUMBERS],
    ),
    // "Mode-Setting Instructions"
    (opcode::MEMORY_MODEL, &[ADDRESSING_MODEL, MEMORY_MODEL]),
    (
        opcode::ENTRY_POINT,
        &[EXECUTION_MODEL, REFERENCE, Kind::LiteralString, REFERENCES],
    ),
    (
        opcode::EXECUTION_MODE,
        &[REFERENCE, EXECUTION_MODE, NUMBERS],
    ),
    (opcode::CAPABILITY, &[CAPABILITY]),
    // "Type-Declaration Instructions"
    (opcode::TYPE_VOID, &[RESULT]),
    (opcode::TYPE_BOOL, &[RESULT]),
    (opcode::TYPE_INT, &[RESULT, NUMBER, NUMBER]),
    (opcode::TYPE_VECTOR, &[RESULT, REFERENCE, NUMBER]),
    (opcode::TYPE_RUNTIME_ARRAY, &[RESULT, REFERENCE]),
    (opcode::TYPE_STRUCT, &[RESULT, REFERENCES]),
    (opcode::TYPE_POINTER, &[RESULT, STORAGE_CLASS, REFERENCE]),
    (opcode::TYPE_FUNCTION, &[RESULT, REFERENCE, REFERENCES]),
    // "Constant-Creation Instructions"
    (opcode::CONSTANT_TRUE, &[TYPE, RESULT]),
    (opcode::CONSTANT_FALSE, &[TYPE, RESULT]),
    (opcode::CONSTANT, &[TYPE, RESULT, NUMBER, NUMBERS]),
    (opcode::CONSTANT_NULL, &[TYPE, RESULT]),
    // "Memory Instructions"
    (opcode::VARIABLE, &[TYPE, RESULT, STORAGE_CLASS]),
    (opcode::LOAD, &[TYPE, RESULT, REFERENCE]),
    (opcode::STORE, &[REFERENCE, REFERENCE]),
    (opcode::ACCESS_CHAIN, &[TYPE, RESULT, REFERENCE, REFERENCES]),
    (opcode::ARRAY_LENGTH, &[TYPE, RESULT, REFERENCE, NUMBER]),
    // "Function Instructions"
    (
        opcode::FUNCTION,
        &[TYPE, RESULT, FUNCTION_CONTROL, REFERENCE],
    ),
    (opcode::FUNCTION_PARAMETER, &[TYPE, RESULT]),
    (opcode::FUNCTION_END, &[]),
    (
        opcode::FUNCTION_CALL,
        &[TYPE, RESULT, REFERENCE, REFERENCES],
    ),
    // "Conversion Instructions"
    (opcode::BITCAST, &[TYPE, RESULT, REFERENCE]),
    // "Composite Instructions"
    (opcode::COMPOSITE_CONSTRUCT, &[TYPE, RESULT, REFERENCES]),
    (
        opcode::COMPOSITE_EXTRACT,
        &[TYPE, RESULT, REFERENCE, NUMBER, NUMBERS],
    ),
    // "Arithmetic Instructions"
    (opcode::SIGNED_NEGATE, UNARY),
    (opcode::INTEGER_ADD, BINARY),
    (opcode::INTEGER_SUBTRACT, BINARY),
    (opcode::INTEGER_MULTIPLY, BINARY),
    (opcode::UNSIGNED_DIVIDE, BINARY),
    (opcode::SIGNED_DIVIDE, BINARY),
    (opcode::UNSIGNED_MODULO, BINARY),
    (opcode::SIGNED_REMAINDER, BINARY),
    // "Bit Instructions"
    (opcode::SHIFT_RIGHT_LOGICAL, BINARY),
    (opcode::SHIFT_RIGHT_ARITHMETIC, BINARY),
    (opcode::SHIFT_LEFT_LOGICAL, BINARY),
    (opcode::BITWISE_OR, BINARY),
    (opcode::BITWISE_XOR, BINARY),
    (opcode::BITWISE_AND, BINARY),
    (opcode::BITWISE_NOT, UNARY),
    // "Relational and Logical Instructions"
    (opcode::LOGICAL_EQUAL, BINARY),
    (opcode::LOGICAL_NOT_EQUAL, BINARY),
    (opcode::LOGICAL_OR, BINARY),
    (opcode::LOGICAL_AND, BINARY),
    (opcode::LOGICAL_NOT, UNARY),
    (opcode::SELECT, TERNARY),
    (opcode::INTEGER_EQUAL, BINARY),
    (opcode::INTEGER_NOT_EQUAL, BINARY),
    (opcode::UNSIGNED_GREATER_THAN, BINARY),
    (opcode::SIGNED_GREATER_THAN, BINARY),
    (opcode::UNSIGNED_GREATER_THAN_EQUAL, BINARY),
    (opcode::SIGNED_GREATER_THAN_EQUAL, BINARY),
    (opcode::UNSIGNED_LESS_THAN, BINARY),
    (opcode::SIGNED_LESS_THAN, BINARY),
    (opcode::UNSIGNED_LESS_THAN_EQUAL, BINARY),
    (opcode::SIGNED_LESS_THAN_EQUAL, BINARY),
    // "Control-Flow Instructions"
    (opcode::LOOP_MERGE, &[REFERENCE, REFERENCE, LOOP_CONTROL]),
    (opcode::SELECTION_MERGE, &[REFERENCE, SELECTION_CONTROL]),
    (opcode::LABEL, &[RESULT]),
    (opcode::BRANCH, &[REFERENCE]),
    (
        opcode::BRANCH_CONDITIONAL,
        &[REFERENCE, REFERENCE, REFERENCE],
    ),
    (opcode::RETURN, &[]),
    (opcode::RETURN_VALUE, &[REFERENCE]),
];

/// What the instructions of an opcode have behind it, where the table has the opcode.
///
/// It takes no memory.
pub fn kinds_of(op: u16) -> Option<&'static [Kind]>
    ensures { option_map (λ kinds. map kind_of kinds.now) result ≡ kinds_of op }
{
    kinds_in(&TABLE, op)
}

/// Whether the table has an opcode.
pub fn is_known(op: u16) -> bool
    ensures { result ≡ is_known op }
{
    kinds_of(op).is_some()
}

fn kinds_in(entries: &[Entry], op: u16) -> Option<&'static [Kind]>
    ensures { option_map (λ kinds. map kind_of kinds.now) result
        ≡ kinds_among (map entry_of entries.now) op }
{
    let entry = find_entry(entries, op)?;
    Some(entry.1)
}

fn find_entry(entries: &[Entry], op: u16) -> Option<&Entry>
    ensures { option_copied result ≡ find (λ entry. entry.0 == op) entries.now }
{
    entries.iter().find(|entry| entry.0 == op)
}
