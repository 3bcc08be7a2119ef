//! What is told of a text, as a function: its tree, or its fault. `law_syntax` proves that it is what the grammar says.
//!
//! This crate holds definitions alone (`specs/`).
#![tactic(auto)]
