//! Cases of the laws of refinement: what small functions come to, trial rules, and for each premise of
//! the laws of rewriting and of lifting a case that needs it.
#![tactic(auto)]

mod examples;
mod free_examples;
mod idle;
mod idle_values;
mod lifted;
mod target_examples;
mod trials;

pub use examples::examples_come_to;
pub use free_examples::{free_choices_come_to, routines_come_to};
pub use idle::no_premise_is_idle;
pub use idle_values::no_premise_of_values_is_idle;
pub use lifted::lifted_rules_hold;
pub use target_examples::{generic_examples_come_to, target_examples_come_to};
pub use trials::{tests_pass, trial_rules_hold, trial_uses_refine};
