//! The meaning of Machine IR: what each opcode gives, memory, calls, blocks and whole runs; and plain programs
//! that compute what operations and instructions give.
#![tactic(auto)]

pub mod bits;
pub mod casts;
pub mod choices;
pub mod counts;
pub mod divisions;
pub mod fold;
pub mod gives;
pub mod laws;
pub mod operations;
pub mod parts;
pub mod shifts;
pub mod sums;
pub mod words;
