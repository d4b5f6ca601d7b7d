//! Legality: the instructions that stand behind the legaliser, and which fit a stage.
#![tactic(auto)]

pub mod fitting;
pub mod legal;
pub mod table;
