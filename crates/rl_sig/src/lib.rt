//! The rules of type aliases and constants.
#![tactic(auto)]

mod evaluate;
mod expression;
mod scope;
mod values;

pub use evaluate::{alias, constant};
