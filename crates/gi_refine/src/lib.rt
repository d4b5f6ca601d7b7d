//! Refinement, and the laws that lift a local rewriting to whole runs.
#![tactic(auto)]

mod fitting;
mod laws;
mod rewriting;
mod values;
mod words;

pub use fitting::{constants_hold, tested_rules_are_used, values_fit};
pub use laws::{
    block_follows, may_be_undefined_is_undefined, pieces_follow, refinement_in_rows_is_allowed,
    refinement_is_reflexive, refinement_is_transitive, same_instruction_follows, whole_runs_follow,
};
pub use rewriting::{
    one_place_follows, replacement_follows, rewriting_follows, same_blocks_follow,
};
pub use values::{
    known_values_follow, replaced_uses_hold, rule_use_follows, value_rules_are_sound, values_follow,
};
pub use words::{classed_function_refines, words_follow};
