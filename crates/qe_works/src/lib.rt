//! What lies behind the lock of a session, and what is done to it in one turn.
#![tactic(auto)]

pub mod laws;
mod shared;
mod works;

pub use shared::Shared;
pub use works::{Abandons, Asks, Looks, Publishes, Reply};

#[cfg(test)]
mod tests;
