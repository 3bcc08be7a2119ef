//! How elements lie in a storage buffer by the rules std430.
//!
//! This crate holds definitions (`specs/`), laws about them, and the types that they share with programs.
#![tactic(auto)]

mod laid;
pub mod laws;
mod scalar;
mod slot;

pub use laid::{Laid, Leaf};
pub use scalar::Scalar;
pub use slot::{Slot, Wanted};
