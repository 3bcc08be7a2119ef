//! The top calls.
#![tactic(auto)]

mod alone;
mod buffer_write;
mod check;
mod command;
mod compile;
pub mod laws;
mod module;
mod number;
mod one;
mod reply_text;
mod status;
mod token;

pub use alone::run_alone;
pub use status::{Status, StatusLine, report};

#[cfg(test)]
mod check_tests;
#[cfg(test)]
mod tests;
