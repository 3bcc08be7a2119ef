//! What a session is about.

/// The rules of a session, and how many callers it may have. No value of it is made.
pub struct Subject<R> {
    pub rules: R,
    pub callers: u32,
}
