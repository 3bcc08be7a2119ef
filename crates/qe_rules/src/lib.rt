//! Queries on one thread, for any rules: what rules are, the answers that are known, and a worker that
//! answers a key with all that it needs.
#![tactic(auto)]

mod alone_asker;
mod anew;
mod asker;
mod chain;
mod cycle;
mod frame;
mod known;
pub mod laws;
mod rules;
mod steps;
mod worker;

pub use alone_asker::AloneAsker;
pub use anew::{Anew, Bodies, resume_anew};
pub use asker::Asker;
pub use cycle::Cycle;
pub use def_query::Step;
pub use frame::Stage;
pub use known::Known;
pub use rules::Rules;
pub use steps::Steps;
pub use worker::alone;

#[cfg(test)]
mod tests;
