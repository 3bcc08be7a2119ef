//! The text that tells replies.
//!
//! This crate holds definitions (`specs/`), and in `laws` what follows from them.
#![tactic(auto)]

pub mod laws;
