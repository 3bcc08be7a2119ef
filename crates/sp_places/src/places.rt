//! A module's instructions by their places.

ghost use Rattle.std.specs.Prelude.{◌≡◌, ◌+◌, MatchOption, IfOk};
ghost use Rattle.def_spirv.specs.Opcodes as opcodes;
ghost use Rattle.def_valid.specs.Ids.{has_result, result_type_at, uses_at};
ghost use Rattle.def_valid.specs.Places.{block_at, first_of, function_at, instruction_at, is_inside, last_before, no_instruction, opcode_at, operand_at, operand_count, operands_from, place_of, result_at, size};
ghost use Rattle.def_valid.specs.Sections.{has_operands};
ghost use Rattle.sp_words.specs.View.{instruction_of, module_of};

use crate::index::Index;
use crate::last::{last_at, last_places};
use crate::operands::{Wanted, all_firsts, all_fits, all_gathered};
use crate::words::{behind, first_opcode, list_at, truth_at, word_at};
use sl_base::{List, NoMemory};
use sp_words::{Inst, Words, opcode};
use std::alloc::Global;
use std::marker::Model;

/// A module, and where its functions and blocks begin and end.
#[derive(Drop)]
pub struct Places<'a> {
    words: &'a Words,
    fits: Vec<bool>,
    defined: Vec<List<u32>>,
    types: Vec<List<u32>>,
    uses: Vec<List<u32>>,
    results: Index,
    functions: Vec<usize>,
    ends: Vec<usize>,
    labels: Vec<usize>,
}

impl<'a> Model for Places<'a> {
    ghost use Rattle.def_spirv.specs.Words.{Module};
    ghost use Rattle.sp_words.specs.View.{module_of};
    ghost use Rattle.sp_places.specs.Tables.{AreTables};

    ghost Value = { Module };

    ghost view = { λ places. module_of places.words.now };

    ghost invariant = { λ places. AreTables (module_of places.words.now)
        places.fits.items places.defined.items places.types.items places.uses.items places.results
        places.functions.items places.ends.items places.labels.items };
}

impl<'a> Places<'a> {
    /// The places of a module, which contracts see as that module.
    pub fn new(alloc: Global, words: &'a Words) -> Result<Places<'a>, NoMemory>
        ensures { IfOk result (λ places. places ≡ module_of words.now) }
    {
        let insts = words.insts.as_slice();
        let fits = all_fits(alloc, insts)?;
        let defined = all_gathered(alloc, insts, Wanted::Result)?;
        let types = all_gathered(alloc, insts, Wanted::ResultType)?;
        let uses = all_gathered(alloc, insts, Wanted::Use)?;
        let results = Index::new(alloc, all_firsts(alloc, defined.as_slice())?)?;
        let functions = last_places(alloc, words, opcode::FUNCTION)?;
        let ends = last_places(alloc, words, opcode::FUNCTION_END)?;
        let labels = last_places(alloc, words, opcode::LABEL)?;
        Ok(Places {
            words,
            fits,
            defined,
            types,
            uses,
            results,
            functions,
            ends,
            labels,
        })
    }

    /// How many instructions there are.
    #[tactic(auto, using(crate::proofs::Modules::size_lem))]
    pub fn size(&self) -> usize
        ensures { result ≡ size self.now }
    {
        self.words.insts.len()
    }

    /// One more than the greatest id that may be used.
    pub fn bound(&self) -> u32
        ensures { result ≡ self.now.bound }
    {
        self.words.bound
    }

    /// The instruction at a place, if there is one.
    pub fn instruction(&self, place: usize) -> Option<&Inst>
        ensures { MatchOption result (instruction_at self.now place ≡ no_instruction)
            (λ inst. instruction_of inst.now ≡ instruction_at self.now place) }
    {
        let insts = self.words.insts.as_slice();
        if place < insts.len() {
            Some(&insts[place])
        } else {
            None
        }
    }

    /// The opcode at a place, or 0 past the last.
    #[tactic(auto, unfolding(def_valid::specs::Places::opcode_at))]
    pub fn opcode(&self, place: usize) -> u16
        ensures { result ≡ opcode_at self.now place }
    {
        match self.instruction(place) {
            Some(inst) => inst.op,
            None => 0,
        }
    }

    /// The opcode behind a place, or 0 past the last.
    pub fn opcode_behind(&self, place: usize) -> u16
        ensures { result ≡ opcode_at self.now (place + 1) }
    {
        if place < self.size() {
            self.opcode(place + 1)
        } else {
            0
        }
    }

    /// Whether what stands at a place has the operands that its opcode takes; there is nothing past
    /// the last.
    pub fn has_operands(&self, place: usize) -> bool
        ensures { result ≡ has_operands self.now place }
    {
        truth_at(self.fits.as_slice(), place)
    }

    /// Where an id is defined first, or the number of instructions.
    pub fn place(&self, id: u32) -> usize
        ensures { result ≡ place_of self.now id }
    {
        self.results.first(id as u64)
    }

    /// Whether an id is defined at a place.
    pub fn has_result(&self, place: usize) -> bool
        ensures { result ≡ has_result self.now place }
    {
        0 < list_at(self.defined.as_slice(), place).len()
    }

    /// The id that is defined at a place, or 0 where there is none.
    pub fn result(&self, place: usize) -> u32
        ensures { result ≡ result_at self.now place }
    {
        word_at(list_at(self.defined.as_slice(), place), 0)
    }

    /// The type of what is defined at a place, or 0 where there is none.
    pub fn result_type(&self, place: usize) -> u32
        ensures { result ≡ result_type_at self.now place }
    {
        word_at(list_at(self.types.as_slice(), place), 0)
    }

    /// The ids that are used at a place.
    pub fn uses(&self, place: usize) -> &[u32]
        ensures { result.now ≡ uses_at self.now place }
    {
        list_at(self.uses.as_slice(), place)
    }

    /// The operands at a place, from one on.
    #[tactic(auto, unfolding(def_valid::specs::Places::operands_from))]
    pub fn operands(&self, place: usize, from: usize) -> &[u32]
        ensures { result.now ≡ operands_from self.now place from }
    {
        match self.instruction(place) {
            Some(inst) => behind(inst.operands.as_slice(), from),
            None => behind(&[], from),
        }
    }

    /// An operand at a place, or 0 where there is none.
    #[tactic(auto, unfolding(def_valid::specs::Places::operand_at))]
    pub fn operand(&self, place: usize, number: usize) -> u32
        ensures { result ≡ operand_at self.now place number }
    {
        match self.instruction(place) {
            Some(inst) => word_at(inst.operands.as_slice(), number),
            None => 0,
        }
    }

    /// How many words the operands at a place have.
    #[tactic(auto, unfolding(def_valid::specs::Places::operand_count))]
    pub fn operand_count(&self, place: usize) -> usize
        ensures { result ≡ operand_count self.now place }
    {
        match self.instruction(place) {
            Some(inst) => inst.operands.len(),
            None => 0,
        }
    }

    /// Where an opcode stands first, or the number of instructions.
    ///
    /// It looks through the instructions.
    pub fn first(&self, op: u16) -> usize
        ensures { result ≡ first_of self.now op }
    {
        first_opcode(self.words.insts.as_slice(), op)
    }

    /// One more than where the last function before a place begins, or 0.
    pub fn function_before(&self, place: usize) -> usize
        ensures { result ≡ last_before opcodes.function self.now place }
    {
        last_at(self.functions.as_slice(), place)
    }

    /// One more than where the last function before a place ends, or 0.
    pub fn end_before(&self, place: usize) -> usize
        ensures { result ≡ last_before opcodes.function_end self.now place }
    {
        last_at(self.ends.as_slice(), place)
    }

    /// One more than where the last block before a place begins, or 0.
    pub fn block_before(&self, place: usize) -> usize
        ensures { result ≡ last_before opcodes.label self.now place }
    {
        last_at(self.labels.as_slice(), place)
    }

    /// Whether a place stands in a function.
    pub fn is_inside(&self, place: usize) -> bool
        ensures { result ≡ is_inside self.now place }
    {
        self.end_before(place) < self.function_before(place)
    }

    /// The function in which a place stands: one more than where it begins, or 0.
    pub fn function(&self, place: usize) -> usize
        ensures { result ≡ function_at self.now place }
    {
        if place < self.size() {
            self.function_before(place + 1)
        } else {
            self.function_before(place)
        }
    }

    /// The block in which a place stands: one more than where it begins, or 0.
    pub fn block(&self, place: usize) -> usize
        ensures { result ≡ block_at self.now place }
    {
        if place < self.size() {
            self.block_before(place + 1)
        } else {
            self.block_before(place)
        }
    }
}
