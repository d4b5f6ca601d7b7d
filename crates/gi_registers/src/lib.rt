//! Registers in the order in which they were added, and the kind of each.
#![tactic(auto)]

pub mod kinds;
pub mod set;
