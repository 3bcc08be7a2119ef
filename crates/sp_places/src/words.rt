//! Words of operands, and instructions by their opcodes.

ghost use Rattle.std.specs.Prelude.{◌≡◌, ◌==◌, [], drop, length, slice_index, slice_index_or, take, true};
ghost use Rattle.std.specs.List.{position};
ghost use Rattle.std.specs.Option.{unwrap_or};

use sl_base::List;
use sp_words::Inst;

/// The words from a place on.
pub fn behind(words: &[u32], from: usize) -> &[u32]
    ensures { result.now ≡ drop from words.now }
{
    if from < words.len() {
        &words[from..]
    } else {
        &[]
    }
}

/// The words before a place.
pub fn before(words: &[u32], count: usize) -> &[u32]
    ensures { result.now ≡ take count words.now }
{
    if count < words.len() {
        &words[..count]
    } else {
        words
    }
}

/// The word at a place, or 0 past the last.
pub fn word_at(words: &[u32], place: usize) -> u32
    ensures { result ≡ slice_index words.now place }
{
    if place < words.len() { words[place] } else { 0 }
}

/// The truth at a place, or true past the last.
pub fn truth_at(truths: &[bool], place: usize) -> bool
    ensures { result ≡ slice_index_or truths.now place true }
{
    if place < truths.len() {
        truths[place]
    } else {
        true
    }
}

/// The list at a place, or none past the last.
pub fn list_at(lists: &[List<u32>], place: usize) -> &[u32]
    ensures { result.now ≡ slice_index_or lists.now place [] }
{
    if place < lists.len() {
        lists[place].as_slice()
    } else {
        &[]
    }
}

/// Where an opcode stands first, or how many instructions there are.
pub fn first_opcode(insts: &[Inst], op: u16) -> usize
    ensures { result ≡ unwrap_or (position (λ inst. inst.op == op) insts.now) (length insts.now) }
{
    position_of(insts, op).unwrap_or(insts.len())
}

fn position_of(insts: &[Inst], op: u16) -> Option<usize>
    ensures { result ≡ position (λ inst. inst.op == op) insts.now }
{
    insts.iter().position(|inst| inst.op == op)
}
