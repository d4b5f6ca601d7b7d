//! Reads lines of LLVM IR.
#![tactic(auto)]

mod choose;
pub mod line;
mod metadata;
mod open;
mod rows;
pub mod stop;
mod types;
