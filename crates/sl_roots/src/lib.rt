//! Places that modules come from, and the loading of sources from them.
#![tactic(auto)]

mod ask;
mod dir;
mod held;
mod loading;
mod memory;
mod plain;
mod refusal;
mod source_set;

pub use dir::DirRoot;
pub use loading::load;
pub use memory::MemoryRoot;
pub use plain::PlainRoot;
pub use refusal::LoadRefusal;
pub use source_set::SourceSet;

#[cfg(test)]
mod tests;
