//! The machine that reads expressions: that it reads what the grammar has, and that what is read of types is exact.
#![tactic(auto)]
