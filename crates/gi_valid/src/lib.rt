//! Validity of a function: what it demands, the faults that break it, and what holds in every run of a valid function.
#![tactic(auto)]

mod examples;
mod invalid;
mod laws;

pub use examples::{
    a_loop_is_invalid, a_loop_runs, a_run_meets_a_failing_row,
    a_terminator_that_defines_is_not_passed, examples_are_invalid, examples_are_valid,
};
pub use invalid::{Fault, Invalid};
pub use laws::{
    definitions_hold, each_function_is_one, unchecked_definitions_hold, uses_are_available,
    valid_is_not_invalid,
};
