//! The types of a module's operands and results, constants, arguments and returns, each rule as a test at a place.
#![tactic(auto)]

mod composites;
mod declarations;
mod functions;
mod pointers;
mod types;
mod values;

pub use functions::{arguments_fit, entry_function, returns_fit};
pub use types::{constants_fit, types_fit};

#[cfg(test)]
mod tests;
