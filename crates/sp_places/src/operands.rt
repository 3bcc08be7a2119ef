//! The ids that an instruction defines and uses.

ghost use Rattle.std.specs.Prelude.{◌≡◌, ◌==◌, not, nat_eq, map, take, drop, is_some, slice_index, Some, None, if◌then◌else◌, IfOk};
ghost use Rattle.std.specs.List.{position, take_while};
ghost use Rattle.std.specs.Option.{option_copied, option_map};
ghost use Rattle.def_spirv.specs.Operands.{operands_by, operands_of, text_before, words_of};
ghost use Rattle.def_spirv.specs.Words.{word_bytes};
ghost use Rattle.sp_words.specs.View.{instruction_of, kind_of, role_of};
ghost use Rattle.sp_places.specs.Gather.{Gathers, wanted_ids, wanted_in};
ghost use lib.Pointwise.{pointwise};

use crate::words::{before, behind, word_at};
use sl_base::{Bytes, List, NoMemory};
use sp_words::table::{Kind, Role, kinds_of};
use sp_words::{Inst, push_text};
use std::alloc::Global;

/// Which ids of an instruction are wanted.
#[derive(Clone, Copy)]
pub enum Wanted {
    /// The id that it defines.
    Result,
    /// The id of the type of what it defines.
    ResultType,
    /// Each id that it names, but the one that it defines.
    Use,
}

impl Wanted {
    fn takes(self, role: Role) -> bool
        ensures { result ≡ wanted_in self (role_of role) }
    {
        match self {
            Wanted::Result => matches!(role, Role::Result),
            Wanted::ResultType => matches!(role, Role::ResultType),
            Wanted::Use => matches!(role, Role::Reference | Role::ResultType),
        }
    }
}

/// The wanted ids of an instruction in order, where it has the operands that its opcode takes.
pub fn gather(alloc: Global, inst: &Inst, wanted: Wanted) -> Result<Option<Vec<u32>>, NoMemory>
    ensures { IfOk result (λ found. option_map (λ ids. ids.items) found
        ≡ wanted_ids wanted (operands_of (instruction_of inst.now))) }
{
    let Some(kinds) = kinds_of(inst.op) else {
        return Ok(None);
    };
    let mut found = Vec::new(alloc);
    let fits = gather_by(alloc, kinds, inst.operands.as_slice(), wanted, &mut found)?;
    Ok(if fits { Some(found) } else { None })
}

/// The wanted ids of an instruction in order; none where its operands do not fit its opcode.
fn gathered(alloc: Global, inst: &Inst, wanted: Wanted) -> Result<List<u32>, NoMemory>
    ensures { IfOk result (λ ids. ids ≡ words_of (wanted_in wanted) (instruction_of inst.now)) }
{
    Ok(match gather(alloc, inst, wanted)? {
        Some(ids) => List::from_vec(ids),
        None => List::new(alloc),
    })
}

/// The wanted ids of each instruction in order.
pub fn all_gathered(
    alloc: Global,
    insts: &[Inst],
    wanted: Wanted,
) -> Result<Vec<List<u32>>, NoMemory>
    ensures { IfOk result (λ lists. lists.items
        ≡ map (words_of (wanted_in wanted)) (map instruction_of insts.now)) }
{
    let mut lists = Vec::new(alloc);
    for inst in insts {
        lists.push(gathered(alloc, inst, wanted)?)?;
    }
    Ok(lists)
}

/// For each instruction, whether it has the operands that its opcode takes.
pub fn all_fits(alloc: Global, insts: &[Inst]) -> Result<Vec<bool>, NoMemory>
    ensures { IfOk result (λ fits. fits.items
        ≡ map (λ i. is_some (operands_of i)) (map instruction_of insts.now)) }
{
    let mut fits = Vec::new(alloc);
    for inst in insts {
        fits.push(has_operands(alloc, inst)?)?;
    }
    Ok(fits)
}

fn has_operands(alloc: Global, inst: &Inst) -> Result<bool, NoMemory>
    ensures { IfOk result (λ fits. fits ≡ is_some (operands_of (instruction_of inst.now))) }
{
    let found = gather(alloc, inst, Wanted::Result)?;
    Ok(found.is_some())
}

/// The first of each list, or 0.
pub fn all_firsts(alloc: Global, lists: &[List<u32>]) -> Result<Vec<u64>, NoMemory>
    ensures { IfOk result (λ ids. ids.items ≡ map (λ ids. slice_index ids 0) lists.now) }
{
    let mut ids = Vec::new(alloc);
    for list in lists {
        ids.push(word_at(list.as_slice(), 0) as u64)?;
    }
    Ok(ids)
}

fn gather_by(
    alloc: Global,
    kinds: &[Kind],
    words: &[u32],
    wanted: Wanted,
    found: &mut Vec<u32>,
) -> Result<bool, NoMemory>
    ensures { IfOk result (Gathers (wanted_ids wanted (operands_by (map kind_of kinds.now) words.now))
        found.old.items found.new.items) }
{
    let [kind, kinds @ ..] = kinds else {
        return Ok(words.is_empty());
    };
    match *kind {
        Kind::One(role) => {
            let [word, words @ ..] = words else {
                return Ok(false);
            };
            if wanted.takes(role) {
                found.push(*word)?;
            }
            gather_by(alloc, kinds, words, wanted, found)
        }
        Kind::LiteralString => match behind_text(alloc, words)? {
            Some(words) => gather_by(alloc, kinds, words, wanted, found),
            None => Ok(false),
        },
        Kind::Rest(role) => {
            if wanted.takes(role) {
                found.extend_from_slice(words)?;
            }
            Ok(true)
        }
    }
}

fn behind_text(alloc: Global, words: &[u32]) -> Result<Option<&[u32]>, NoMemory>
    ensures { IfOk result (λ behind. option_copied behind
        ≡ option_map (λ found. found.1) (text_before words.now)) }
{
    let bytes = bytes_of(alloc, words)?;
    let text = text_in(bytes.as_slice());
    let mut spelled = List::new(alloc);
    push_text(&mut spelled, text)?;
    Ok(behind_front(words, spelled.as_slice(), text.len() / 4 + 1))
}

fn behind_front<'a>(words: &'a [u32], front: &[u32], count: usize) -> Option<&'a [u32]>
    ensures { option_copied result ≡ (if pointwise nat_eq (take count words.now) front.now
        then Some (drop count words.now) else None) }
{
    if before(words, count) == front {
        Some(behind(words, count))
    } else {
        None
    }
}

fn bytes_of(alloc: Global, words: &[u32]) -> Result<Bytes, NoMemory>
    ensures { IfOk result (λ bytes. bytes ≡ word_bytes words.now) }
{
    let mut bytes = Bytes::new(alloc);
    for word in words {
        bytes.extend_from_slice(&word.to_le_bytes())?;
    }
    Ok(bytes)
}

fn text_in(bytes: &[u8]) -> &[u8]
    ensures { result.now ≡ take_while (λ b. not (b == 0)) bytes.now }
{
    let end = zero_in(bytes).unwrap_or(bytes.len());
    &bytes[..end]
}

fn zero_in(bytes: &[u8]) -> Option<usize>
    ensures { result ≡ position (λ b. b == 0) bytes.now }
{
    bytes.iter().position(|byte| *byte == 0)
}
