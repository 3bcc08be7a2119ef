//! What the syntax trees of token lists are: the grammar, its limits, and what is told where there is no tree.
//!
//! This crate holds definitions alone (`specs/`).
#![tactic(auto)]
