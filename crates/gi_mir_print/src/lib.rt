//! The text of a Machine IR module.
#![tactic(auto)]

mod blocks;
mod functions;
mod instruction;
mod pieces;
mod registers;

pub use functions::{print, print_instr};
