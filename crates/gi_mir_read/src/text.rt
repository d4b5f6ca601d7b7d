//! What is read of a text as a whole.

pub(crate) mod ir;
pub(crate) mod line_bytes;
pub(crate) mod lines;
pub(crate) mod parts;
pub(crate) mod refusal;
pub(crate) mod sections;
pub(crate) mod triples;
pub(crate) mod wrongs;
