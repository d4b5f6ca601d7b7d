//! Whether a function is valid, and the fault that is told of one that isn't.
#![tactic(auto)]

mod available;
mod blocks;
mod change;
mod cover;
mod definitions;
mod dominators;
mod effects;
mod ends;
mod laws;
mod limits;
mod listed;
mod lowest;
mod marks;
mod mask;
mod mismatch;
mod noting;
mod operands;
mod page;
mod passed;
mod physical;
mod predecessors;
mod reached;
mod registers;
mod room;
mod round;
mod rounds;
mod seen;
mod settled;
mod site;
mod spread;
mod sure;
mod tree;
mod typing;
mod uses;
mod verifying;
mod words;

pub use laws::one_fault_is_told;
pub use verifying::{VerifyError, verify};
