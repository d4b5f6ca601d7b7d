//! The words of the command line: what they ask for, or which one is at fault.
#![tactic(auto)]

pub mod machine;
pub mod options;
