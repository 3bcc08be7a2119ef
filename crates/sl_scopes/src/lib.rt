//! Scopes: the first name that a scope of a module's tree declares twice.
#![tactic(auto)]

mod declarations;
mod declared;
mod early;
mod scope;
mod search;
mod statements;
mod twice;

pub use twice::declared_twice;

#[cfg(test)]
mod tests;
