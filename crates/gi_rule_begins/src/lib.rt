//! Where the rule engine begins: a module that was read and checked is good.
#![tactic(auto)]

pub mod laws;
