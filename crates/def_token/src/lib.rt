//! What the tokens of a text are: its pieces, marks and numbers, and its first lexical fault.
//!
//! This crate holds definitions alone (`specs/`).
#![tactic(auto)]
