//! Definitions of sessions: what a session is about, and what each of its callers knows of itself.
#![tactic(auto)]

mod subject;

pub use subject::Subject;
