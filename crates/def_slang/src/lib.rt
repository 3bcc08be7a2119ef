//! What the source language is: names, keywords, forms of modules, and the texts of diagnostics.
//!
//! This crate holds definitions alone (`specs/`).
#![tactic(auto)]
