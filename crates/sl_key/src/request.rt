//! Requests and replies.

use sl_base::{Diag, List, Name};

/// A component.
#[derive(Debug, Drop)]
pub enum Term {
    /// A module.
    Load(Name),
}

/// What is asked of a session.
#[derive(Debug, Drop)]
pub enum Request {
    /// Whether a component can be made.
    Make(Term),
}

/// What a request is replied.
#[derive(Debug, Drop)]
pub enum Reply {
    Made,
    /// What is wrong, in order, each diagnostic once.
    Failed(List<Diag>),
}
