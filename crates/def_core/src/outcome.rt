//! What events come to.

/// What an event comes to. `C` is a type of cycles of keys.
#[derive(Debug, Drop)]
pub enum Outcome<C> {
    /// The key is published.
    Known,
    /// Nobody had claimed the key, and it is now the last key of the caller's chain.
    Yours,
    /// To wait for the key would close this cycle. The caller does not wait.
    Circle(C),
    /// The caller of this number has claimed the key, and the asking caller waits for it.
    Wait(u32),
    /// The answer is published.
    Published,
    /// Everything was given back.
    Abandoned,
}
