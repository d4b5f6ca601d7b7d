//! Tests of `gi_riscv`: constants by instructions.
#![tactic(auto)]

#[cfg(test)]
mod constants;
