//! What is read of types: how looks ahead for types end.
#![tactic(auto)]
