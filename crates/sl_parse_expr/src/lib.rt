//! The parser of expressions and of statements.
#![tactic(auto)]

mod parts;

pub use parts::{expr, stmt};
