//! Definitions of a ticket lock's passes: what a caller knows of the one history that all callers of
//! the lock make.
#![tactic(auto)]
