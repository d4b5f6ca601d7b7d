//! What a change of a function leans on: values fit their registers, constants and numbers are in order.
#![tactic(auto)]

mod laws;

pub use laws::{
    loads_have_room, tested_numbers_hold, valid_constants_fit, valid_values_fit,
    widely_tested_values_fit,
};
