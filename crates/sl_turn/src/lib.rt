//! A ticket lock over a value that stands for a history. Its callers take turns, and each caller's pass
//! knows what the caller has seen of the one history that all turns make.
#![tactic(auto)]

mod law;
mod pass;
mod stands_for;
mod turn;
mod view;
mod work;

pub use pass::Pass;
pub use stands_for::StandsFor;
pub use turn::Turn;
pub use work::{Turned, Work};

#[cfg(test)]
mod tally;
#[cfg(test)]
mod tests;
