//! How declarations and modules are read over lists of tokens. Nobody has to believe these functions: `law_decls` proves
//! that what they read is exact. The parser of declarations is held to them.
//!
//! This crate holds definitions alone (`specs/`).
#![tactic(auto)]
