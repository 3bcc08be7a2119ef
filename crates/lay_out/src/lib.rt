//! How the elements of storage buffers lie.
#![tactic(auto)]

mod binding;
mod clash;
mod found;
mod free;
mod shape;
mod std430;

pub use binding::bind;
pub use clash::BindRefusal;
pub use def_layout::{Laid, Leaf, Scalar, Slot, Wanted};
pub use shape::Shape;
pub use std430::layout;

#[cfg(test)]
mod tests;
