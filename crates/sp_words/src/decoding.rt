//! Modules from bytes.

ghost use Rattle.std.specs.Prelude.{◌≡◌, ◌+◌, ◌^◌, ◌<◌, IfOk, IfErr, length};
ghost use Rattle.sp_words.specs.Decoding.{IsRefusedBy, IsSpellingOf, words_of};
ghost use Rattle.sp_words.specs.Reading.{Begins, IsNoneOf, ReadsInstructions, ReadsModule};
ghost use Rattle.sp_words.specs.View.{instruction_of, module_of};
ghost use Rattle.def_spirv.specs.Words.{Module};

use crate::encoding::{MAGIC, SCHEMA, VERSION};
use crate::instruction::{Inst, Words};
use crate::table::is_known;
use sl_base::{List, NoMemory};
use std::alloc::Global;

/// Why bytes are not decoded. Words are counted from 0.
#[derive(Clone, Copy, Debug, PartialEq, Eq)]
pub enum WordRefusal {
    /// The bytes are no whole words, or too few for a header.
    NotWords,
    /// The first word is not that of a module.
    BadMagic,
    /// The second word is not that of SPIR-V 1.5.
    BadVersion,
    /// The fifth word, which is reserved, is not 0.
    BadSchema,
    /// The word `at` begins no instruction: the number of words that it has is 0 or past the end.
    BadCount { at: u32 },
    /// The word `at` begins an instruction with an opcode that the table does not have.
    Unknown { at: u32, op: u16 },
    /// Memory ran out.
    NoMemory,
}

impl From<NoMemory> for WordRefusal {
    ghost use Rattle.std.specs.Prelude.{◌≡◌};
    ghost use Rattle.sp_words.specs.declared.decoding.WordRefusal.TheVariants.{NoMemory};

    ghost from_gives = { λ _ refusal. refusal ≡ NoMemory };

    fn from(_error: NoMemory) -> WordRefusal {
        WordRefusal::NoMemory
    }
}

/// The words of the header (SPIR-V 1.5, 2.3).
const HEADER_WORDS: u32 = 5;

/// The module that bytes are the one spelling of, where they are one of instructions of the table
/// (SPIR-V 1.5, 2.3, "Physical Layout of a SPIR-V Module and Instruction").
///
/// Of the refusals the first that is the case is told, in the order in which `WordRefusal` has
/// them; the last two stand at the first word that begins no instruction.
pub fn decode(alloc: Global, bytes: &[u8]) -> Result<Words, WordRefusal>
    requires { length bytes.now < 2 ^ 34 }
    ensures ok { IfOk result (λ words. IsSpellingOf (module_of words) bytes.now) }
    ensures refused { IfErr result (λ refusal. IsRefusedBy bytes.now refusal) }
    ensures complete { (m : Module) → IsSpellingOf m bytes.now →
        IfErr result (λ refusal. refusal ≡ WordRefusal.NoMemory) }
{
    if bytes.len() % 4 != 0 {
        return Err(WordRefusal::NotWords);
    }
    let words = words_of(alloc, bytes)?;
    read_module(alloc, words.as_slice())
}

fn words_of(alloc: Global, bytes: &[u8]) -> Result<List<u32>, NoMemory>
    ensures { IfOk result (λ words. words ≡ words_of bytes.now) }
{
    let mut words = List::new(alloc);
    let mut rest = bytes;
    while let [a, b, c, d, tail @ ..] = rest {
        words.push(u32::from_le_bytes([*a, *b, *c, *d]))?;
        rest = tail;
    }
    Ok(words)
}

fn read_module(alloc: Global, words: &[u32]) -> Result<Words, WordRefusal>
    requires { length words.now < 2 ^ 32 }
    ensures { ReadsModule words.now result }
{
    let [magic, version, generator, bound, schema, behind @ ..] = words else {
        return Err(WordRefusal::NotWords);
    };
    if *magic != MAGIC {
        return Err(WordRefusal::BadMagic);
    }
    if *version != VERSION {
        return Err(WordRefusal::BadVersion);
    }
    if *schema != SCHEMA {
        return Err(WordRefusal::BadSchema);
    }
    Ok(Words {
        generator: *generator,
        bound: *bound,
        insts: read_instructions(alloc, behind)?,
    })
}

fn read_instructions(alloc: Global, words: &[u32]) -> Result<List<Inst>, WordRefusal>
    requires { length words.now + 5 < 2 ^ 32 }
    ensures { ReadsInstructions words.now result }
{
    let mut insts = List::new(alloc);
    let mut rest = words;
    let mut at = HEADER_WORDS;
    while !rest.is_empty() {
        let inst = read_instruction(alloc, at, rest)?;
        let count = inst.operands.len() + 1;
        rest = &rest[count..];
        at += count as u32;
        insts.push(inst)?;
    }
    Ok(insts)
}

fn read_instruction(alloc: Global, at: u32, words: &[u32]) -> Result<Inst, WordRefusal>
    requires { 0 < length words.now }
    ensures ok { IfOk result (λ inst. Begins words.now (instruction_of inst)) }
    ensures err { IfErr result (λ refusal. IsNoneOf at words.now refusal) }
{
    let count = (words[0] >> 16) as usize;
    if count == 0 || words.len() < count {
        return Err(WordRefusal::BadCount { at });
    }
    let op = (words[0] & 0xffff) as u16;
    if !is_known(op) {
        return Err(WordRefusal::Unknown { at, op });
    }
    Ok(Inst {
        op,
        operands: List::from_slice(alloc, &words[1..count])?,
    })
}
