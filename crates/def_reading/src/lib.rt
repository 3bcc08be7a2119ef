//! How types, expressions and statements are read over lists of tokens. Nobody has to believe these functions: `law_machine`,
//! `law_exprs` and `law_stmts` prove that what they read is exact. The parsers are held to them.
//!
//! This crate holds definitions alone (`specs/`).
#![tactic(auto)]
