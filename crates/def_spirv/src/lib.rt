//! What SPIR-V modules are: instructions with their table, how they are spelled in words and bytes, and how ids are
//! numbered.
//!
//! This crate holds definitions (`specs/`), and lemmas on how ids are numbered and examples of the table (`proofs/`).
#![tactic(auto)]
