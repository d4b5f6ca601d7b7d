//! RISC-V: constants by instructions, the addresses of symbols, and the instructions that stand for generic operations.
#![tactic(auto)]

mod constants;
pub mod laws;
pub mod selection;

pub use constants::{Sequence, Step, materialise};
