//! Names, places, lists, diagnostics, refusals and tables, on which every other crate stands.
#![tactic(auto)]

pub mod code;
mod diag;
mod list;
mod memory;
mod name;
mod place;
mod refusal;
mod table;
mod texts;

pub use diag::{Diag, Site};
pub use list::{Bytes, List};
pub use memory::NoMemory;
pub use name::{Name, NameRefusal, is_name, is_word_byte};
pub use place::Place;
pub use refusal::Refusal;
pub use table::{Row, find_row};

#[cfg(test)]
mod tests;
