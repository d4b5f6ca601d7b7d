//! What an operation gives.

/// What an operation gives: its results, one result of which only the low bits are fixed, or nothing.
#[derive(Clone, Copy, Debug, PartialEq, Eq)]
pub enum Gives {
    /// This result and no other.
    One(u128),
    /// These two results and no others.
    Two(u128, u128),
    /// One result of `width` bits: its low `known` bits are those of the value, the others are free.
    LowBits { known: u16, width: u16, value: u128 },
    /// No result is promised, nor that the run goes on.
    Undefined,
}
