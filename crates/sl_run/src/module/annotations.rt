//! The names that a module keeps, and where and how its variables lie.

ghost use Rattle.std.specs.Prelude.{◌≡◌, ◌++◌, [], ◌∷◌, OnOk};
ghost use Rattle.sl_run.specs.Instructions as section;
ghost use Rattle.sl_run.specs.Reading.{write_of};

use super::id;
use super::instructions::Instructions;
use crate::buffer_write::BufferWrite;
use sl_base::NoMemory;
use sp_words::{enumerant, opcode, push_text};

/// Names the entry point and the buffer as the source does.
pub fn push_names(insts: &mut Instructions, write: &BufferWrite) -> Result<(), NoMemory>
    ensures { OnOk result (insts.new ≡ insts.old ++ section.names (write_of write.now)) }
{
    push_name(insts, id::ENTRY_POINT, write.entry)?;
    push_name(insts, id::BUFFER, write.buffer)
}

fn push_name(insts: &mut Instructions, target: u32, name: &[u8]) -> Result<(), NoMemory>
    ensures { OnOk result (insts.new ≡ insts.old ++ section.name_of target name.now ∷ []) }
{
    let mut operands = insts.operands();
    operands.push(target)?;
    push_text(&mut operands, name)?;
    insts.push_list(opcode::NAME, operands)
}

/// Says which input the dispatch id is, where the buffer is bound, and that its elements lie four
/// bytes apart.
pub fn push_decorations(insts: &mut Instructions) -> Result<(), NoMemory>
    ensures { OnOk result (insts.new ≡ insts.old ++ section.decorations) }
{
    insts.push(
        opcode::DECORATE,
        &[
            id::DISPATCH_ID,
            enumerant::DECORATION_BUILT_IN,
            enumerant::BUILT_IN_GLOBAL_INVOCATION_ID,
        ],
    )?;
    insts.push(
        opcode::DECORATE,
        &[id::BUFFER, enumerant::DECORATION_DESCRIPTOR_SET, 0],
    )?;
    insts.push(
        opcode::DECORATE,
        &[id::BUFFER, enumerant::DECORATION_BINDING, 0],
    )?;
    insts.push(
        opcode::DECORATE,
        &[id::ARRAY, enumerant::DECORATION_ARRAY_STRIDE, 4],
    )?;
    insts.push(opcode::DECORATE, &[id::BLOCK, enumerant::DECORATION_BLOCK])?;
    insts.push(
        opcode::MEMBER_DECORATE,
        &[id::BLOCK, 0, enumerant::DECORATION_OFFSET, 0],
    )
}
