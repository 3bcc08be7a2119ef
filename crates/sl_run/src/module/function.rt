//! The function of a module's entry point.

ghost use Rattle.std.specs.Prelude.{◌≡◌, ◌++◌, OnOk};
ghost use Rattle.sl_run.specs.Instructions as section;

use super::id;
use super::instructions::Instructions;
use sl_base::NoMemory;
use sp_words::{enumerant, opcode};

/// The function of the entry point reads its index, and writes the element where the index is below
/// the buffer's length.
pub fn push_functions(insts: &mut Instructions) -> Result<(), NoMemory>
    ensures { OnOk result (insts.new ≡ insts.old ++ section.functions) }
{
    push_function_head(insts)?;
    push_index_read(insts)?;
    push_bounds_test(insts)?;
    push_element_write(insts)?;
    push_function_end(insts)
}

fn push_function_head(insts: &mut Instructions) -> Result<(), NoMemory>
    ensures { OnOk result (insts.new ≡ insts.old ++ section.function_head) }
{
    let control = enumerant::FUNCTION_CONTROL_NONE;
    let class = enumerant::STORAGE_CLASS_FUNCTION;
    insts.push(
        opcode::FUNCTION,
        &[id::VOID, id::ENTRY_POINT, control, id::VOID_FUNCTION],
    )?;
    insts.push(opcode::LABEL, &[id::START])?;
    insts.push(
        opcode::VARIABLE,
        &[id::UINT_POINTER, id::INDEX_VARIABLE, class],
    )
}

fn push_index_read(insts: &mut Instructions) -> Result<(), NoMemory>
    ensures { OnOk result (insts.new ≡ insts.old ++ section.index_read) }
{
    insts.push(opcode::LOAD, &[id::UINT3, id::VECTOR, id::DISPATCH_ID])?;
    insts.push(
        opcode::COMPOSITE_EXTRACT,
        &[id::UINT, id::COMPONENT, id::VECTOR, 0],
    )?;
    insts.push(opcode::STORE, &[id::INDEX_VARIABLE, id::COMPONENT])
}

fn push_bounds_test(insts: &mut Instructions) -> Result<(), NoMemory>
    ensures { OnOk result (insts.new ≡ insts.old ++ section.bounds_test) }
{
    let control = enumerant::SELECTION_CONTROL_NONE;
    insts.push(
        opcode::LOAD,
        &[id::UINT, id::TESTED_INDEX, id::INDEX_VARIABLE],
    )?;
    insts.push(opcode::ARRAY_LENGTH, &[id::UINT, id::LENGTH, id::BUFFER, 0])?;
    insts.push(
        opcode::UNSIGNED_LESS_THAN,
        &[id::BOOL, id::WITHIN, id::TESTED_INDEX, id::LENGTH],
    )?;
    insts.push(opcode::SELECTION_MERGE, &[id::MERGE, control])?;
    insts.push(
        opcode::BRANCH_CONDITIONAL,
        &[id::WITHIN, id::INNER, id::MERGE],
    )
}

fn push_element_write(insts: &mut Instructions) -> Result<(), NoMemory>
    ensures { OnOk result (insts.new ≡ insts.old ++ section.element_write) }
{
    insts.push(opcode::LABEL, &[id::INNER])?;
    insts.push(opcode::LOAD, &[id::UINT, id::INDEX, id::INDEX_VARIABLE])?;
    insts.push(
        opcode::ACCESS_CHAIN,
        &[
            id::INT_POINTER,
            id::ELEMENT,
            id::BUFFER,
            id::ZERO,
            id::INDEX,
        ],
    )?;
    insts.push(opcode::STORE, &[id::ELEMENT, id::VALUE])?;
    insts.push(opcode::BRANCH, &[id::MERGE])
}

fn push_function_end(insts: &mut Instructions) -> Result<(), NoMemory>
    ensures { OnOk result (insts.new ≡ insts.old ++ section.function_end) }
{
    insts.push(opcode::LABEL, &[id::MERGE])?;
    insts.push(opcode::RETURN, &[])?;
    insts.push(opcode::FUNCTION_END, &[])
}
