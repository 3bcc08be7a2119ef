//! Many callers that work on the keys of one set of rules: what each event of theirs answers and leads to,
//! which histories of events are legal, and what holds of every legal history.
//!
//! This crate holds definitions (`specs/`), and the types that they share with programs.
#![tactic(auto)]

mod event;
mod outcome;

pub use event::Event;
pub use outcome::Outcome;
