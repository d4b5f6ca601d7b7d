//! Tests of gi_top over inputs and outputs in memory, whose calls can be made to fail.
#![tactic(auto)]

#[cfg(test)]
mod tests;
