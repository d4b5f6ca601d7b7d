//! What LLVM IR in text is. The only code are types.
#![tactic(auto)]

pub mod laws;
pub mod place;
pub mod token;
