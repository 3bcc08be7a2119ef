//! Numbers for ids, in the order in which they are first mentioned.

ghost use Rattle.std.specs.Prelude.{◌≡◌, ◌+◌, ◌^◌, ◌<◌, ◌++◌, map, nat_eq, IfOk, OnOk};
ghost use Rattle.std.specs.List.{flat_map};
ghost use Rattle.indexmap.specs.IndexSet.{index_set_len};
ghost use Rattle.def_spirv.specs.Symbolic.{number_of, numbered, operand_ids, section_lines};
ghost use Rattle.sp_module.specs.Numbering.{ids_of, instruction_by, with_ids, words_by};
ghost use Rattle.sp_module.specs.View.{operand_of, sections_of};
ghost use Rattle.sp_words.specs.View.{instruction_of, module_of};

use crate::sections::{Line, Operand, Sections};
use indexmap::IndexSet;
use sl_base::{List, NoMemory};
use sp_words::{Inst, Words, push_text};
use std::alloc::Global;

/// The module of sections: each id gets its place, counted from 1, among all ids in the order in
/// which the words first mention them. The bound is one more than the last
/// (SPIR-V 1.5, 2.3, "Physical Layout of a SPIR-V Module and Instruction").
///
/// Ids that 32 bits cannot number would take more memory than there is, and are answered so.
pub fn number(alloc: Global, sections: &Sections) -> Result<Words, NoMemory>
    ensures { IfOk result
        (λ words. module_of words ≡ numbered nat_eq (section_lines (sections_of sections.now))) }
{
    let mut ids = IndexSet::new(alloc);
    mention_sections(&mut ids, &sections.in_order())?;
    let bound = bound_of(&ids)?;
    let mut insts = List::new(alloc);
    push_sections(alloc, &ids, &sections.in_order(), &mut insts)?;
    Ok(Words {
        generator: 0,
        bound,
        insts,
    })
}

fn mention_sections(ids: &mut IndexSet<u32>, sections: &[&[Line]]) -> Result<(), NoMemory>
    ensures { OnOk result (ids.new.keys ≡ with_ids ids.old.keys
        (ids_of (flat_map (λ section. section.now) sections.now))) }
{
    for lines in sections {
        mention_all(ids, lines)?;
    }
    Ok(())
}

fn mention_all(ids: &mut IndexSet<u32>, lines: &[Line]) -> Result<(), NoMemory>
    ensures { OnOk result (ids.new.keys ≡ with_ids ids.old.keys (ids_of lines.now)) }
{
    for line in lines {
        mention_line(ids, line)?;
    }
    Ok(())
}

fn mention_line(ids: &mut IndexSet<u32>, line: &Line) -> Result<(), NoMemory>
    ensures { OnOk result (ids.new.keys ≡ with_ids ids.old.keys
        (flat_map operand_ids (map operand_of line.now.operands))) }
{
    for operand in line.operands.as_slice() {
        if let Operand::Id(id) = operand {
            ids.insert(*id)?;
        }
    }
    Ok(())
}

fn bound_of(ids: &IndexSet<u32>) -> Result<u32, NoMemory>
    ensures { IfOk result (λ bound. bound ≡ index_set_len ids.now + 1) }
{
    match u32::try_from(ids.len() + 1) {
        Ok(bound) => Ok(bound),
        Err(_) => Err(NoMemory),
    }
}

fn push_sections(
    alloc: Global,
    ids: &IndexSet<u32>,
    sections: &[&[Line]],
    insts: &mut List<Inst>,
) -> Result<(), NoMemory>
    requires { index_set_len ids.now + 1 < 2 ^ 32 }
    ensures { OnOk result (map instruction_of insts.new ≡ map instruction_of insts.old
        ++ map (instruction_by ids.now.keys) (flat_map (λ section. section.now) sections.now)) }
{
    for lines in sections {
        push_lines(alloc, ids, lines, insts)?;
    }
    Ok(())
}

fn push_lines(
    alloc: Global,
    ids: &IndexSet<u32>,
    lines: &[Line],
    insts: &mut List<Inst>,
) -> Result<(), NoMemory>
    requires { index_set_len ids.now + 1 < 2 ^ 32 }
    ensures { OnOk result (map instruction_of insts.new
        ≡ map instruction_of insts.old ++ map (instruction_by ids.now.keys) lines.now) }
{
    for line in lines {
        insts.push(numbered_line(alloc, ids, line)?)?;
    }
    Ok(())
}

fn numbered_line(alloc: Global, ids: &IndexSet<u32>, line: &Line) -> Result<Inst, NoMemory>
    requires { index_set_len ids.now + 1 < 2 ^ 32 }
    ensures { IfOk result (λ inst. instruction_of inst ≡ instruction_by ids.now.keys line.now) }
{
    let mut operands = List::new(alloc);
    for operand in line.operands.as_slice() {
        push_operand(ids, operand, &mut operands)?;
    }
    Ok(Inst {
        op: line.op,
        operands,
    })
}

fn push_operand(
    ids: &IndexSet<u32>,
    operand: &Operand,
    words: &mut List<u32>,
) -> Result<(), NoMemory>
    requires { index_set_len ids.now + 1 < 2 ^ 32 }
    ensures { OnOk result (words.new ≡ words.old ++ words_by ids.now.keys operand.now) }
{
    match operand {
        Operand::Id(id) => words.push(number_in(ids, *id)),
        Operand::Number(n) => words.push(*n),
        Operand::Text(bytes) => push_text(words, bytes.as_slice()),
    }
}

/// The place of an id, counted from 1, or 0 where nothing mentions it.
fn number_in(ids: &IndexSet<u32>, id: u32) -> u32
    requires { index_set_len ids.now + 1 < 2 ^ 32 }
    ensures { result ≡ number_of nat_eq ids.now.keys id }
{
    match ids.get_index_of(&id) {
        Some(index) => index as u32 + 1,
        None => 0,
    }
}
