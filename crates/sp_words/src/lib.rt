//! Instructions as words and bytes.
#![tactic(auto)]

mod decoding;
mod encoding;
pub mod enumerant;
mod instruction;
pub mod laws;
pub mod opcode;
pub mod table;
mod text;

pub use decoding::{WordRefusal, decode};
pub use encoding::encode;
pub use instruction::{Inst, Words};
pub use text::push_text;

#[cfg(test)]
mod tests;
