//! A list of instructions that grows.

use sl_base::{List, NoMemory};
use sp_words::Inst;
use std::alloc::Global;
use std::marker::Model;

/// The instructions of a module so far, which contracts see as those of the definition. After an
/// `Err`, some of them are missing.
#[derive(Drop)]
pub struct Instructions {
    alloc: Global,
    insts: List<Inst>,
}

impl Model for Instructions {
    ghost use Rattle.std.specs.Prelude.{List, map};
    ghost use Rattle.def_spirv.specs.Words.{Instruction};
    ghost use Rattle.sp_words.specs.View.{instruction_of};

    ghost Value = { List Instruction };

    ghost view = { λ instructions. map instruction_of instructions.insts };
}

impl Instructions {
    ghost use Rattle.std.specs.Prelude.{◌≡◌, ◌++◌, [], ◌∷◌, map, OnOk};
    ghost use Rattle.sl_run.specs.Instructions.{instruction};
    ghost use Rattle.sp_words.specs.View.{instruction_of};

    /// No instructions, which take no memory.
    pub fn new(alloc: Global) -> Self
        ensures { result ≡ [] }
    {
        Instructions {
            alloc,
            insts: List::new(alloc),
        }
    }

    /// An empty list of operands.
    pub fn operands(&self) -> List<u32>
        ensures { result ≡ [] }
    {
        List::new(self.alloc)
    }

    /// Puts an instruction of copies of these operands at the end.
    pub fn push(&mut self, op: u16, operands: &[u32]) -> Result<(), NoMemory>
        ensures { OnOk result (self.new ≡ self.old ++ instruction op operands.now ∷ []) }
    {
        let mut copies = self.operands();
        copies.extend_from_slice(operands)?;
        self.push_list(op, copies)
    }

    /// Puts an instruction of these operands at the end.
    pub fn push_list(&mut self, op: u16, operands: List<u32>) -> Result<(), NoMemory>
        ensures { OnOk result (self.new ≡ self.old ++ instruction op operands ∷ []) }
    {
        self.insts.push(Inst { op, operands })
    }

    /// The instructions in order.
    pub fn into_list(self) -> List<Inst>
        ensures { map instruction_of result ≡ self }
    {
        self.insts
    }
}
