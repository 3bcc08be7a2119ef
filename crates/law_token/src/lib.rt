//! Laws of tokens: that a text has at most one list of tokens or one fault, and that functions tell what relations say.
#![tactic(auto)]

pub mod laws;
