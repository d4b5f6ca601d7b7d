//! What is read of a line of a block.

pub(crate) mod block;
pub(crate) mod definition;
pub(crate) mod faults;
pub(crate) mod instr;
pub(crate) mod items;
pub(crate) mod kept;
pub(crate) mod memory;
pub(crate) mod number;
pub(crate) mod source;
pub(crate) mod split;
pub(crate) mod stop;
pub(crate) mod what;
pub(crate) mod word;
