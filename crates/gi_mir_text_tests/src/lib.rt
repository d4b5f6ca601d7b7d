//! Tests of `gi_mir_read` and `gi_mir_print`: texts and what they are read as, functions and what they are printed as.
#![tactic(auto)]

#[cfg(test)]
mod printing;
#[cfg(test)]
mod reading;
#[cfg(test)]
mod triples;
