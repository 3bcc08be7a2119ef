//! The readers of declarations.
#![tactic(auto)]

mod buffers;
mod declarations;
mod functions;
mod members;
mod methods;
mod module;
pub mod parser;
mod parts;
