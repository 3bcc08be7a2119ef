//! Places in the tokens of a source, single tokens, and what is told where none goes on.
#![tactic(auto)]

pub mod cursor;
pub mod ends;
pub mod nesting;
pub mod reach;
pub mod refusal;
pub mod signs;
pub mod source;
mod tokens;
pub mod touching;
