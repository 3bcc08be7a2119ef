//! Which SPIR-V modules are valid: the twenty rules, each in the terms of the SPIR-V specification.
//!
//! This crate holds definitions alone (`specs/`).
#![tactic(auto)]
