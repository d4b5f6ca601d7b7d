//! LLVM IR as it is read: types, values, instructions, functions and modules, and what passes the limits.
#![tactic(auto)]

pub mod function;
pub mod instr;
pub mod module;
pub mod sizes;
pub mod types;
pub mod value;
