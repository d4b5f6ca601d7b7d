//! Reading Machine IR: from a text to the module that it spells, or to its first line that spells nothing.
#![tactic(auto)]

mod document;
mod function;
mod line;
mod list;
mod read;
mod sizes;
mod text;

pub use read::{ir_number, read_mir};
pub use sizes::check_sizes;
pub use text::triples::triple;
