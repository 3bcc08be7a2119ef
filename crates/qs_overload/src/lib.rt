//! The choice among the overloads of a call.
#![tactic(auto)]

mod beats;
mod choice;
pub mod laws;
mod unbeaten;

pub use choice::{Picked, pick};

#[cfg(test)]
mod tests;
