//! That what is read of statements is exact.
#![tactic(auto)]

pub mod laws;
