//! The rules of all keys, and what requests are replied.
#![tactic(auto)]

mod asking;
mod diagnostics;
mod imports;
mod replying;
mod rules;
mod sorting;
mod syntax;
mod telling;
mod told;
mod worked;

pub use replying::reply;
pub use rules::SlangRules;
pub use worked::{Worked, reply_alone};

#[cfg(test)]
mod tests;
