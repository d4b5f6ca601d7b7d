//! A small table, and tests of `gi_normalise` by it.
#![tactic(auto)]

pub mod branches;
#[cfg(test)]
mod driven;
