//! Instructions whose ids are symbols, by section.

ghost use Rattle.std.specs.Prelude.{◌≡◌, map};
ghost use Rattle.std.specs.List.{flat_map};
ghost use Rattle.def_spirv.specs.Symbolic.{section_lines};
ghost use Rattle.sp_module.specs.View.{line_of, sections_of};

use sl_base::{Bytes, List};

/// What stands after an opcode.
#[derive(Debug, Drop)]
pub enum Operand {
    /// An id, by its symbol: equal symbols are the same id.
    Id(u32),
    /// A number of one word.
    Number(u32),
    /// The bytes of a text, without its zero byte.
    Text(Bytes),
}

/// An instruction whose ids are symbols.
#[derive(Debug, Drop)]
pub struct Line {
    pub op: u16,
    pub operands: List<Operand>,
}

/// The instructions of a module by section
/// (SPIR-V 1.5, 2.4, "Logical Layout of a Module").
#[derive(Debug, Drop)]
pub struct Sections {
    pub capabilities: List<Line>,
    pub memory_model: List<Line>,
    pub entry_points: List<Line>,
    pub execution_modes: List<Line>,
    pub names: List<Line>,
    pub decorations: List<Line>,
    pub globals: List<Line>,
    pub functions: List<Line>,
}

impl Sections {
    /// The instructions of each section, in the order of the sections.
    pub(crate) fn in_order(&self) -> [&[Line]; 8]
        ensures { map line_of (flat_map (λ section. section.now) result)
            ≡ section_lines (sections_of self.now) }
    {
        [
            self.capabilities.as_slice(),
            self.memory_model.as_slice(),
            self.entry_points.as_slice(),
            self.execution_modes.as_slice(),
            self.names.as_slice(),
            self.decorations.as_slice(),
            self.globals.as_slice(),
            self.functions.as_slice(),
        ]
    }
}
