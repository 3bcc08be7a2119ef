//! Structured control flow: which merge blocks and continue targets belong to which headers
//! (SPIR-V 1.5, 2.11, "Structured Control Flow").
#![tactic(auto)]

mod merges;

pub use merges::Merges;

#[cfg(test)]
mod tests;
