//! Values of up to 128 bits, and their signs.

ghost use Rattle.std.specs.Prelude.{◌≡◌, ◌+◌, ◌-◌, ◌*◌, ◌/◌, ◌%◌, ◌^◌, ◌<◌, ◌≤◌, nat_le, nat_lt, nat_abs};
ghost use Rattle.gi_llt.specs.Bits.{signed, unsigned};
ghost use Rattle.gi_meaning.specs.Plain.{with_sign};

use gi_llt::wrap;

/// The greatest value of so many bits.
pub fn greatest(n: u16) -> u128
    requires positive { 0 < n }
    requires limit { n ≤ 128 }
    ensures { result ≡ 2 ^ n - 1 }
{
    u128::MAX >> (128 - n)
}

/// The value of the sign bit.
pub fn sign_bit(n: u16) -> u128
    requires positive { 0 < n }
    requires limit { n ≤ 128 }
    ensures { result ≡ 2 ^ (n - 1) }
{
    1u128 << (n - 1)
}

/// Whether a value has so many bits.
pub fn has_bits(n: u16, value: u128) -> bool
    requires positive { 0 < n }
    requires limit { n ≤ 128 }
    ensures { result ≡ nat_lt value (2 ^ n) }
{
    value <= greatest(n)
}

/// Whether the sign bit is set.
pub fn is_negative(n: u16, value: u128) -> bool
    requires positive { 0 < n }
    requires limit { n ≤ 128 }
    ensures { result ≡ nat_le (2 ^ (n - 1)) value }
{
    value >= sign_bit(n)
}

/// The size of a value that is read with a sign.
pub fn size(n: u16, value: u128) -> u128
    requires positive { 0 < n }
    requires limit { n ≤ 128 }
    requires fits { value < 2 ^ n }
    ensures { result ≡ nat_abs (signed n value) }
{
    if is_negative(n, value) {
        greatest(n) - value + 1
    } else {
        value
    }
}

/// The bits that stand for a number of this sign and size.
pub fn bits_of(n: u16, negative: bool, size: u128) -> u128
    requires positive { 0 < n }
    requires limit { n ≤ 128 }
    ensures { result ≡ unsigned n (with_sign negative size) }
{
    let low = wrap(size, n);
    if negative && low != 0 {
        greatest(n) - (low - 1)
    } else {
        low
    }
}
