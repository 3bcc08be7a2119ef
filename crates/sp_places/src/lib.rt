//! A module's instructions by their places, and its ids by what they stand for.
#![tactic(auto)]

mod index;
mod last;
mod operands;
mod places;
mod words;

pub use index::Index;
pub use operands::{Wanted, gather};
pub use places::Places;

#[cfg(test)]
mod tests;
