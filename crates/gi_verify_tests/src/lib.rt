//! Tests of `gi_valid` and `gi_verify`: functions that are valid, and the fault of each that isn't.
#![tactic(auto)]

#[cfg(test)]
mod faults;
#[cfg(test)]
mod verifying;
