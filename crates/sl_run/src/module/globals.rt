//! The types, constants and variables of a module.

ghost use Rattle.std.specs.Prelude.{◌≡◌, ◌++◌, OnOk};
ghost use Rattle.sl_run.specs.Instructions as section;
ghost use Rattle.sl_run.specs.Reading.{write_of};

use super::id;
use super::instructions::Instructions;
use crate::buffer_write::BufferWrite;
use sl_base::NoMemory;
use sp_words::{enumerant, opcode};

const STORAGE: u32 = enumerant::STORAGE_CLASS_STORAGE_BUFFER;

/// Each type and constant stands before the first instruction that names it.
pub fn push_globals(insts: &mut Instructions, write: &BufferWrite) -> Result<(), NoMemory>
    ensures { OnOk result (insts.new ≡ insts.old ++ section.globals (write_of write.now)) }
{
    push_dispatch_id(insts)?;
    push_buffer(insts)?;
    push_function_types(insts)?;
    push_constants(insts, write.value)
}

fn push_dispatch_id(insts: &mut Instructions) -> Result<(), NoMemory>
    ensures { OnOk result (insts.new ≡ insts.old ++ section.dispatch_id) }
{
    let class = enumerant::STORAGE_CLASS_INPUT;
    insts.push(opcode::TYPE_INT, &[id::UINT, 32, 0])?;
    insts.push(opcode::TYPE_VECTOR, &[id::UINT3, id::UINT, 3])?;
    insts.push(opcode::TYPE_POINTER, &[id::UINT3_POINTER, class, id::UINT3])?;
    insts.push(
        opcode::VARIABLE,
        &[id::UINT3_POINTER, id::DISPATCH_ID, class],
    )
}

fn push_buffer(insts: &mut Instructions) -> Result<(), NoMemory>
    ensures { OnOk result (insts.new ≡ insts.old ++ section.buffer) }
{
    insts.push(opcode::TYPE_INT, &[id::INT, 32, 1])?;
    insts.push(opcode::TYPE_RUNTIME_ARRAY, &[id::ARRAY, id::INT])?;
    insts.push(opcode::TYPE_STRUCT, &[id::BLOCK, id::ARRAY])?;
    insts.push(
        opcode::TYPE_POINTER,
        &[id::BLOCK_POINTER, STORAGE, id::BLOCK],
    )?;
    insts.push(opcode::VARIABLE, &[id::BLOCK_POINTER, id::BUFFER, STORAGE])
}

fn push_function_types(insts: &mut Instructions) -> Result<(), NoMemory>
    ensures { OnOk result (insts.new ≡ insts.old ++ section.function_types) }
{
    let class = enumerant::STORAGE_CLASS_FUNCTION;
    insts.push(opcode::TYPE_VOID, &[id::VOID])?;
    insts.push(opcode::TYPE_FUNCTION, &[id::VOID_FUNCTION, id::VOID])?;
    insts.push(opcode::TYPE_POINTER, &[id::UINT_POINTER, class, id::UINT])?;
    insts.push(opcode::TYPE_BOOL, &[id::BOOL])?;
    insts.push(opcode::TYPE_POINTER, &[id::INT_POINTER, STORAGE, id::INT])
}

fn push_constants(insts: &mut Instructions, value: u32) -> Result<(), NoMemory>
    ensures { OnOk result (insts.new ≡ insts.old ++ section.constants value) }
{
    insts.push(opcode::CONSTANT, &[id::UINT, id::ZERO, 0])?;
    insts.push(opcode::CONSTANT, &[id::INT, id::VALUE, value])
}
