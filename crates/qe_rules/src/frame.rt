//! How far bodies are worked out.

/// How far a frame has come.
#[derive(Clone, Copy, Debug)]
pub enum Stage {
    /// It was not resumed yet.
    Begun,
    /// When it was resumed last, it needed a key.
    Waiting,
    /// It gave the answer of its key.
    Ended,
}
