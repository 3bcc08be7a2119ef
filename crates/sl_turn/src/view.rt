//! What a seat of the lock's table knows.

use std::collections::LinkedList;

/// What a seat knows. No value of it is made.
pub struct View<S, E> {
    /// The lock's subject, and none once the seat was joined into another.
    pub subject: Option<S>,
    pub number: u32,
    pub seen: LinkedList<E>,
    /// What the seat joined last had seen, or this one where that is shorter.
    pub joined: LinkedList<E>,
    pub books: LinkedList<(u32, LinkedList<E>)>,
    pub turns: u64,
    pub next: u32,
    pub ticket: Option<u64>,
    pub in_turn: bool,
}
