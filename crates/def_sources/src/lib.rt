//! What the sources of a request are: the modules and absent names that a walk over mentioned names
//! gathers.
//!
//! This crate holds definitions (`specs/`), and in `laws` what follows from them.
#![tactic(auto)]

pub mod laws;
