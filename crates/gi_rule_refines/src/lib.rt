//! Rewrites that are sound, used wherever they fit in functions.
#![tactic(auto)]

pub mod copies;
pub mod dead;
pub mod laws;
pub mod reading;
pub mod rows;
pub mod stages;
