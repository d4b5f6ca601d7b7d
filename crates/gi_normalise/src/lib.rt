//! The driver of every pass: a table of rows is applied until none fits where the pass looks.
#![tactic(auto)]

mod backwards;
mod forwards;
pub mod laws;
mod steps;
mod table;
mod trying;

pub use backwards::normalise_backwards;
pub use forwards::normalise_forwards;
pub use steps::Steps;
pub use table::{LocalTable, RuleTable};
