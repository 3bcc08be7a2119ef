//! Bodies of keys as data, and the one function that runs them over answers.
//!
//! This crate holds definitions (`specs/`) and laws about them, which hold of every body.
#![tactic(auto)]

pub mod laws;
