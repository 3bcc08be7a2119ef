//! The parser of whole modules.
#![tactic(auto)]

mod parsing;

pub use parsing::parse;
