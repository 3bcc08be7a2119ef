//! Modules by section with symbols for ids, and the numbers that the ids get.
#![tactic(auto)]

mod numbering;
mod sections;

pub use numbering::number;
pub use sections::{Line, Operand, Sections};

#[cfg(test)]
mod tests;
