//! What the syntax trees of modules are: the grammar of declarations, its limits, scopes, and what is told of a module.
//!
//! This crate holds definitions alone (`specs/`).
#![tactic(auto)]
