//! Rewrites in functions: where one fits, what the function is after it, and that a valid function stays valid.
#![tactic(auto)]

pub mod laws;
