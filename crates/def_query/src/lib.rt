//! What queries answer: rules as the bodies of keys, settled answers, and cycles.
//!
//! This crate holds definitions (`specs/`), and the one type that they share with programs.
#![tactic(auto)]

mod step;

pub use step::Step;
