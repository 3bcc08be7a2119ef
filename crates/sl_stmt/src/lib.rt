//! The readers of statements and of what they are made of.
#![tactic(auto)]

mod either;
pub mod heads;
mod locals;
mod simple;
pub mod statements;
pub mod wholes;
