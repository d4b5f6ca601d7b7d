//! Tests of `gi_mir`: functions that are built and changed, and examples from the table of opcodes.
#![tactic(auto)]

#[cfg(test)]
mod functions;
#[cfg(test)]
mod table;
