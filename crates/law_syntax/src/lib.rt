//! That what is told of a text is one thing, and that a function tells it.
#![tactic(auto)]

pub mod laws;
