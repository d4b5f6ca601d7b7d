//! Tests of `gi_observe` and `gi_rule_use`: edits and what is told of them, and rewrites.
#![tactic(auto)]

#[cfg(test)]
mod built;
#[cfg(test)]
mod edits;
#[cfg(test)]
mod uses;
