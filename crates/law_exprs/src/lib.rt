//! That what is read of expressions is exact.
#![tactic(auto)]

pub mod laws;
