//! Low-level types, targets and the bits of numbers: what every other crate stands on.
#![tactic(auto)]

ghost use Rattle.std.specs.Prelude.{◌≡◌, ◌⊎◌};
ghost use Rattle.gi_llt.specs.Llt.{width_of};

mod bits;
pub mod tokens;

pub use bits::{high_product, part, sext, wrap};

/// Memory ran out.
#[derive(Clone, Copy, Debug, PartialEq, Eq)]
pub struct Memory;

/// A low-level type: a scalar of so many bits, or a pointer.
#[derive(Clone, Copy, Debug, Default, PartialEq, Eq)]
pub enum Llt {
    Scalar(u16),
    #[default]
    Pointer,
}

/// What code is made for: the width of a register in bits, 32 or 64, and whether the machine has Zbb.
#[derive(Clone, Copy, Debug, PartialEq, Eq)]
pub struct Target {
    pub xlen: u16,
    pub zbb: bool,
}

/// How a value is extended to the words in which it is passed.
#[derive(Clone, Copy, Debug, PartialEq, Eq)]
pub enum Ext {
    /// The bits above it may be any.
    Any,
    Sign,
    Zero,
}

/// An argument of a function: an integer of so many bits, or a pointer, whose bits aren't looked at.
#[derive(Clone, Copy, Debug, PartialEq, Eq)]
pub struct Arg {
    pub bits: u16,
    pub pointer: bool,
    pub ext: Ext,
}

/// The bits of a type: a scalar's own, and a register's for a pointer.
pub fn width(ty: Llt, target: Target) -> u16
    requires { (target.xlen ≡ 32) ⊎ (target.xlen ≡ 64) }
    ensures { result ≡ width_of target.xlen ty }
{
    match ty {
        Llt::Scalar(bits) => bits,
        Llt::Pointer => target.xlen,
    }
}
