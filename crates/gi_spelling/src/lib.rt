//! What Machine IR in text is: which module a text spells, and the text that a module is printed as.
#![tactic(auto)]

pub mod kept;
pub mod laws;
pub mod one;
pub mod token;
pub mod written;
