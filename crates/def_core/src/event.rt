//! What callers do.

/// What a caller does, whose number comes first. Callers are numbered from 1.
#[derive(Debug, Drop)]
pub enum Event<K, A> {
    /// It asks for the answer of a key.
    Ask(u32, K),
    /// It gives the last key of its chain this answer, for good.
    Publish(u32, A),
    /// It looks again for the key that it waits for.
    Look(u32),
    /// It gives back all that it has claimed, and waits no longer.
    Abandon(u32),
}
