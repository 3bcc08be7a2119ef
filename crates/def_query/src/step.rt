//! What the body of a key gives.

/// What the body of a key gives: the first key that it uses and has no answer of, or its own answer.
#[derive(Debug, Drop)]
pub enum Step<K, A> {
    Needs(K),
    Done(A),
}
