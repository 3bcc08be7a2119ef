//! Where an opcode stands last before each place.

ghost use Rattle.std.specs.Prelude.{◌≡◌, ◌<◌, ◌-◌, length, min, slice_index, if◌then◌else◌, IfOk};
ghost use Rattle.def_valid.specs.Places.{last_before, size};
ghost use Rattle.sp_places.specs.Last.{lasts};
ghost use Rattle.sp_words.specs.View.{module_of};

use sl_base::NoMemory;
use sp_words::Words;
use std::alloc::Global;

/// For each place up to the number of instructions, one more than the place before it at which an
/// opcode stands last, or 0.
pub fn last_places(alloc: Global, words: &Words, op: u16) -> Result<Vec<usize>, NoMemory>
    ensures { IfOk result (λ table.
        let m = module_of words.now in table.items ≡ lasts op m (size m)) }
{
    let mut last = 0;
    let mut table = Vec::new(alloc);
    table.push(last)?;
    for (place, inst) in words.insts.as_slice().iter().enumerate() {
        last = later(inst.op == op, place + 1, last);
        table.push(last)?;
    }
    Ok(table)
}

fn later(hit: bool, here: usize, before: usize) -> usize
    ensures { result ≡ (if hit then here else before) }
{
    if hit { here } else { before }
}

/// What a table has of a place; past the end it is what it has last.
pub fn last_at(table: &[usize], place: usize) -> usize
    requires { 0 < length table.now }
    ensures { result ≡ slice_index table.now (min place (length table.now - 1)) }
{
    let end = table.len() - 1;
    table[place.min(end)]
}
