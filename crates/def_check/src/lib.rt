//! What a module's declarations mean: types, constant values, the bodies of keys, and replies.
//!
//! This crate holds definitions (`specs/`) and laws about them.
#![tactic(auto)]

pub mod laws;
