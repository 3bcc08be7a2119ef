//! That what is read of declarations and modules is exact.
#![tactic(auto)]

pub mod laws;
