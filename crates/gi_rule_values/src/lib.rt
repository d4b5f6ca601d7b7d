//! Rules of the passes as values: what a row of a table says of the place at which it fits, and what it means on numbers.
#![tactic(auto)]

pub mod artifact_rows;
mod building;
pub mod combining_rows;
pub mod laws;
pub mod lowering_rows;
mod rewrite;
pub mod selecting_rows;
pub mod widening_rows;
mod words;

pub use building::{Line, s};
pub use rewrite::{Definition, Operation, Rewrite, Slot};
