//! Which forms of the source language are checked so far: the first declaration of a module that has another one.
#![tactic(auto)]

mod built;

pub use built::{not_built, small_number};

#[cfg(test)]
mod tests;
