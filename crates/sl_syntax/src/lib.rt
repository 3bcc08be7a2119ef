//! The front end: the tree of a text, or what is told of it.
#![tactic(auto)]

mod front_end;

pub use front_end::syntax;

#[cfg(test)]
mod tests;
