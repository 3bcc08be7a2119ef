//! Types that are read ahead, and where they end for each token at which one may begin.
#![tactic(auto)]

pub mod ahead;
pub mod looked;
mod stop;
pub mod types;
