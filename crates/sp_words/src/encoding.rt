//! Modules as bytes.

ghost use Rattle.std.specs.Prelude.{◌≡◌, ◌+◌, ◌*◌, ◌^◌, ◌<◌, ◌++◌, All, IfOk, OnOk};
ghost use Rattle.sp_words.specs.View.{instruction_of, module_of, FitsWordCount};
ghost use Rattle.def_spirv.specs.Words.{instruction_words, spelling, word_bytes};

use crate::instruction::{Inst, Words};
use sl_base::{Bytes, NoMemory};
use std::alloc::Global;

pub(crate) const MAGIC: u32 = 0x0723_0203;

pub(crate) const VERSION: u32 = 0x0001_0500;

pub(crate) const SCHEMA: u32 = 0;

/// The one spelling of a module, in little-endian order (SPIR-V 1.5, 2.3).
pub fn encode(alloc: Global, words: &Words) -> Result<Bytes, NoMemory>
    requires { All FitsWordCount words.now.insts }
    ensures { IfOk result (λ bytes. bytes ≡ spelling (module_of words.now)) }
{
    let mut bytes = Bytes::new(alloc);
    let header = [MAGIC, VERSION, words.generator, words.bound, SCHEMA];
    push_words(&mut bytes, &header)?;
    for inst in words.insts.as_slice() {
        push_instruction(&mut bytes, inst)?;
    }
    Ok(bytes)
}

fn push_instruction(bytes: &mut Bytes, inst: &Inst) -> Result<(), NoMemory>
    requires { FitsWordCount inst.now }
    ensures { OnOk result
        (bytes.new ≡ bytes.old ++ word_bytes (instruction_words (instruction_of inst.now))) }
{
    push_words(bytes, &[first_word(inst.op, inst.operands.len())])?;
    push_words(bytes, inst.operands.as_slice())
}

fn first_word(op: u16, operand_count: usize) -> u32
    requires { operand_count + 1 < 2 ^ 16 }
    ensures { result ≡ 2 ^ 16 * (operand_count + 1) + op }
{
    let word_count = operand_count as u32 + 1;
    word_count << 16 | u32::from(op)
}

fn push_words(bytes: &mut Bytes, words: &[u32]) -> Result<(), NoMemory>
    ensures { OnOk result (bytes.new ≡ bytes.old ++ word_bytes words.now) }
{
    for word in words {
        bytes.extend_from_slice(&word.to_le_bytes())?;
    }
    Ok(())
}
