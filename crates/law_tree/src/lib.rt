//! Laws of trees: that a tree has an entry for each of its tokens, and what trees begin with.
#![tactic(auto)]

pub mod laws;
