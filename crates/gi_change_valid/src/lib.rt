//! A rewriting keeps a valid function valid: what it owes, and what follows fault by fault.
#![tactic(auto)]

mod laws;

pub use laws::{
    blocks_stay_there, definitions_stay_single, phis_stay_first, physical_registers_stay,
    terminators_stay_last, types_stay_met, valid_function_stays_valid,
};
