//! Which forms of the source language are checked so far, and what is told of the others.
//!
//! This crate holds definitions alone (`specs/`).
#![tactic(auto)]
