//! What a written line means, by the tables of its document: registers by their classes, blocks by their places, globals
//! by the numbers of their names, constants, memory operands.
#![tactic(auto)]

mod access;
mod constant;
mod naming;
pub mod numbering;
pub mod resolve;
pub mod tables;
