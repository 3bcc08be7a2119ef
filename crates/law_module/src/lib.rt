//! Laws of declarations and modules: limits, names that are declared twice, what forms begin with.
#![tactic(auto)]

pub mod laws;
