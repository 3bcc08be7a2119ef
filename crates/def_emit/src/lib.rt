//! Which instructions a program of operations is.
//!
//! This crate holds definitions alone (`specs/`).
#![tactic(auto)]
