//! The trait of gates, which are called at fixed points of a caller's work.

/// A gate is passed before each request of each caller, and before each key that a request asks. At
/// each of these calls the caller has claimed nothing and holds no lock, so a test that lets callers
/// meet at a gate shows that they work beside each other.
pub trait Gate: Sync {
    /// Callers and requests count from 1. `ask` is 0 before the request, and k before the k-th key
    /// that it asks.
    fn pass(&self, caller: u32, request: u32, ask: u32);
}

/// A gate that does nothing.
#[derive(Clone, Copy, Debug)]
pub struct OpenGate;

impl Gate for OpenGate {
    fn pass(&self, _caller: u32, _request: u32, _ask: u32) {}
}
