//! Making a rewrite at an instruction of a function.
#![tactic(auto)]

mod laws;
mod making;
mod staging;
mod using;

pub use laws::rows_are_formed;
pub use making::rewrite_at;
pub use staging::may_be_made;
pub use using::Use;
