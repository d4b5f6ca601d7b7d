//! Tests of `gi_ir` and `gi_ir_read`.
#![tactic(auto)]

#[cfg(test)]
mod lines;
#[cfg(test)]
mod sizes;
