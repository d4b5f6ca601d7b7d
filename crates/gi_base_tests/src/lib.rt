//! Tests of the numbers of `gi_llt`, the registers of `gi_cc`, the streams of `gi_io` and the tokens of `gi_text`.
#![tactic(auto)]

#[cfg(test)]
mod calling;
#[cfg(test)]
mod files;
#[cfg(test)]
mod numbers;
#[cfg(test)]
mod tokens;
