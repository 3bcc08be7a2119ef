//! Places in a source.

/// A place in a module's source. Lines and columns count from 1; a column counts bytes.
#[derive(Clone, Copy, Debug, PartialEq, Eq, PartialOrd, Ord)]
pub struct Place {
    pub line: u32,
    pub column: u32,
}
