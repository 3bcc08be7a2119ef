//! The instructions of a module that writes one buffer.

ghost use Rattle.std.specs.Prelude.{◌≡◌, ◌≤◌, All, IfOk, length};
ghost use Rattle.def_emit.specs.Emit.{emitted};
ghost use Rattle.def_emit.specs.Lower.{program_of};
ghost use Rattle.sl_run.specs.Reading.{write_of};
ghost use Rattle.sp_words.specs.View.{module_of, FitsWordCount};

mod annotations;
mod function;
mod globals;
mod header;
mod id;
mod instructions;

use crate::buffer_write::BufferWrite;
use instructions::Instructions;
use sl_base::NoMemory;
use sp_words::Words;
use std::alloc::Global;

/// The module that a buffer write is emitted as. Its names have at most 255 bytes, so that the
/// words of each instruction can be counted in its first.
pub fn module(alloc: Global, write: &BufferWrite) -> Result<Words, NoMemory>
    requires buffer { length write.now.buffer.now ≤ 255 }
    requires entry { length write.now.entry.now ≤ 255 }
    ensures emitted { IfOk result
        (λ words. module_of words ≡ emitted (program_of (write_of write.now))) }
    ensures fit { IfOk result (λ words. All FitsWordCount words.insts) }
{
    let mut insts = Instructions::new(alloc);
    header::push_capabilities(&mut insts)?;
    header::push_memory_model(&mut insts)?;
    header::push_entry_points(&mut insts, write)?;
    header::push_execution_modes(&mut insts, write)?;
    annotations::push_names(&mut insts, write)?;
    annotations::push_decorations(&mut insts)?;
    globals::push_globals(&mut insts, write)?;
    function::push_functions(&mut insts)?;
    Ok(Words {
        generator: 0,
        bound: id::BOUND,
        insts: insts.into_list(),
    })
}
