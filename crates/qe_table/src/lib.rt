//! A table: what many callers have published, claimed and wait for, as calls that each make at most one
//! event of one history. It has no thread.
#![tactic(auto)]

mod history;
mod table;

pub use table::Table;

#[cfg(test)]
mod tests;
