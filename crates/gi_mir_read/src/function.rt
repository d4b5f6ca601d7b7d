//! What is read of a function: its blocks.

pub(crate) mod blocks;
pub(crate) mod body;
pub(crate) mod building;
pub(crate) mod notes;
pub(crate) mod successors;
pub(crate) mod told;
