//! What stands in the place of an instruction.
#![tactic(auto)]

mod applying;
pub mod laws;

pub use applying::replace_root;
