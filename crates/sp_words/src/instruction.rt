//! Instructions and modules of numbers.

use sl_base::List;

/// An instruction: its opcode, and the words after its first (SPIR-V 1.5, 2.3).
#[derive(Debug, Drop)]
pub struct Inst {
    pub op: u16,
    pub operands: List<u32>,
}

/// A module: what the header leaves open, and the instructions in order.
#[derive(Debug, Drop)]
pub struct Words {
    pub generator: u32,
    pub bound: u32,
    pub insts: List<Inst>,
}
