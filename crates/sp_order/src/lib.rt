//! The order of a module's instructions: sections, ids and blocks, each rule as a test at a place, and the first place
//! at which one is broken.
#![tactic(auto)]

mod blocks;
mod ids;
mod opcodes;
mod rules;
mod sections;

pub use rules::{Rule, first_break};

#[cfg(test)]
mod tests;
