//! The pure core of a session: many callers that ask, publish, look and abandon, as one machine over
//! events. It has no thread.
#![tactic(auto)]

pub mod laws;
mod machine;

pub use def_core::Event;
pub use machine::Core;
use qe_rules::Cycle;

/// What an event comes to.
pub type Outcome<K> = def_core::Outcome<Cycle<K>>;

#[cfg(test)]
mod tests;
