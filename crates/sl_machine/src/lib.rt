//! The machine that reads expressions.
#![tactic(auto)]

mod behind;
mod closing;
mod finish;
mod frames;
mod looks;
mod machine;
mod operator;
mod run;
mod step;
pub mod whole;
mod words;
