//! What a module needs, and its entry points (SPIR-V 1.5, 2.4, "Logical Layout of a Module").

ghost use Rattle.std.specs.Prelude.{◌≡◌, ◌++◌, OnOk};
ghost use Rattle.sl_run.specs.Instructions as section;
ghost use Rattle.sl_run.specs.Reading.{write_of};

use super::id;
use super::instructions::Instructions;
use crate::buffer_write::BufferWrite;
use sl_base::NoMemory;
use sp_words::{enumerant, opcode, push_text};

/// Declares shaders, the one capability in use.
pub fn push_capabilities(insts: &mut Instructions) -> Result<(), NoMemory>
    ensures { OnOk result (insts.new ≡ insts.old ++ section.capabilities) }
{
    insts.push(opcode::CAPABILITY, &[enumerant::CAPABILITY_SHADER])
}

/// Declares logical addressing, and the memory model of GLSL.
pub fn push_memory_model(insts: &mut Instructions) -> Result<(), NoMemory>
    ensures { OnOk result (insts.new ≡ insts.old ++ section.memory_model) }
{
    insts.push(
        opcode::MEMORY_MODEL,
        &[
            enumerant::ADDRESSING_MODEL_LOGICAL,
            enumerant::MEMORY_MODEL_GLSL450,
        ],
    )
}

/// Declares the entry point: its name, and the variables that it uses.
pub fn push_entry_points(insts: &mut Instructions, write: &BufferWrite) -> Result<(), NoMemory>
    ensures { OnOk result (insts.new ≡ insts.old ++ section.entry_points (write_of write.now)) }
{
    let mut operands = insts.operands();
    operands.extend_from_slice(&[enumerant::EXECUTION_MODEL_GL_COMPUTE, id::ENTRY_POINT])?;
    push_text(&mut operands, write.entry)?;
    operands.extend_from_slice(&[id::DISPATCH_ID, id::BUFFER])?;
    insts.push_list(opcode::ENTRY_POINT, operands)
}

/// Declares how many threads a group has.
pub fn push_execution_modes(insts: &mut Instructions, write: &BufferWrite) -> Result<(), NoMemory>
    ensures { OnOk result
        (insts.new ≡ insts.old ++ section.execution_modes (write_of write.now)) }
{
    let (x, y, z) = write.threads;
    insts.push(
        opcode::EXECUTION_MODE,
        &[
            id::ENTRY_POINT,
            enumerant::EXECUTION_MODE_LOCAL_SIZE,
            x,
            y,
            z,
        ],
    )
}
