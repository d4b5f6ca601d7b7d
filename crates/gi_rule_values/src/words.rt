//! Numbers that stand in rewrites.

ghost use Rattle.std.specs.Prelude.{◌≡◌, ◌<◌, ◌≤◌, ◌-◌, ◌^◌};
ghost use Rattle.gi_llt.specs.Bits.{unsigned};
ghost use Rattle.gi_llt.specs.Signs.{negated};

use gi_llt::wrap;

/// A power of two.
pub(crate) fn power(exponent: u16) -> u128
    requires { exponent < 128 }
    ensures { result ≡ 2 ^ exponent }
{
    1u128 << exponent
}

/// So many ones.
pub(crate) fn ones(bits: u16) -> u128
    requires { bits ≤ 128 }
    ensures { result ≡ 2 ^ bits - 1 }
{
    if bits == 128 {
        u128::MAX
    } else {
        power(bits) - 1
    }
}

/// The bits of a value with the other sign.
pub(crate) fn negated(bits: u16, value: u128) -> u128
    requires few { bits ≤ 128 }
    requires within { value < 2 ^ bits }
    ensures { result ≡ negated bits value }
{
    if value == 0 {
        0
    } else {
        ones(bits) - (value - 1)
    }
}

/// The low bits of a number with a sign.
pub(crate) fn unsigned(bits: u16, number: i16) -> u128
    requires some { 1 ≤ bits }
    requires at_most { bits ≤ 128 }
    ensures { result ≡ unsigned bits number }
{
    let size = u128::from(number.unsigned_abs());
    if number < 0 {
        ones(bits) - wrap(size - 1, bits)
    } else {
        wrap(size, bits)
    }
}
