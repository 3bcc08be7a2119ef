//! Chains of claimed keys, what their callers wait for, and the cycles that waits would close.
#![tactic(auto)]

mod claims;
mod closing;
mod place;
mod rotation;
mod waits;

pub use closing::{closes, cycle};
pub use rotation::rotate;
pub use waits::Waits;
