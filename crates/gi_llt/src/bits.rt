//! The bits of numbers: cut, extended, taken apart, and the high half of a product.

ghost use Rattle.std.specs.Prelude.{◌≡◌, ◌<◌, ◌≤◌, ◌+◌, ◌-◌, ◌*◌, ◌/◌, ◌%◌, ◌^◌, IsTrue, ◌↔◌, ◌*ℤ◌, if◌then◌else◌};
ghost use Rattle.gi_llt.specs.Signs.{is_negative, size_of, negated};
ghost use Rattle.gi_llt.specs.Bits.{wrapped, signed, unsigned, sign_extended, part_of, unsigned_high_product, signed_high_product};

// 2 to the number of bits.
fn power(bits: u16) -> u128
    requires { bits < 128 }
    ensures { result ≡ 2 ^ bits }
{
    1u128 << bits
}

// The greatest number of so many bits.
fn greatest(bits: u16) -> u128
    requires { bits ≤ 128 }
    ensures { result ≡ 2 ^ bits - 1 }
{
    if bits == 128 {
        u128::MAX
    } else {
        power(bits) - 1
    }
}

/// The value modulo 2 to the number of bits.
pub fn wrap(value: u128, bits: u16) -> u128
    requires some { 1 ≤ bits }
    requires at_most { bits ≤ 128 }
    ensures { result ≡ wrapped bits value }
{
    if bits == 128 {
        value
    } else {
        value % power(bits)
    }
}

/// Bit `from - 1` of the value copied upward, up to `to` bits.
pub fn sext(value: u128, from: u16, to: u16) -> u128
    requires some { 1 ≤ from }
    requires upward { from ≤ to }
    requires at_most { to ≤ 128 }
    ensures { result ≡ sign_extended from to value }
{
    let low = wrap(value, from);
    if low < power(from - 1) {
        low
    } else {
        greatest(to) - (greatest(from) - low)
    }
}

/// The k-th group of so many bits, the lowest first.
pub fn part(value: u128, bits: u16, k: u16) -> u128
    requires some { 1 ≤ bits }
    requires at_most { bits ≤ 128 }
    requires begins_within { k * bits < 128 }
    ensures { result ≡ part_of bits k value }
{
    wrap(value >> (k * bits), bits)
}

// Whether a value of so many bits stands for a number below 0.
fn is_below_zero(value: u128, bits: u16) -> bool
    requires some { 1 ≤ bits }
    requires at_most { bits ≤ 64 }
    ensures { result ≡ is_negative bits value }
{
    value >= power(bits - 1)
}

// The number that a value of so many bits stands for, without its sign.
fn size(value: u128, bits: u16) -> u128
    requires some { 1 ≤ bits }
    requires at_most { bits ≤ 64 }
    requires fits { value < 2 ^ bits }
    ensures size { result ≡ size_of bits value }
    ensures fits { result < 2 ^ bits }
{
    if is_below_zero(value, bits) {
        power(bits) - value
    } else {
        value
    }
}

// The bits of a number below 0 of this size.
fn negate(size: u128, bits: u16) -> u128
    requires at_most { bits ≤ 128 }
    requires fits { size < 2 ^ bits }
    ensures { result ≡ negated bits size }
{
    if size == 0 {
        0
    } else {
        greatest(bits) - (size - 1)
    }
}

// The product of two values of so many bits.
fn product(a: u128, b: u128, bits: u16) -> u128
    requires at_most { bits ≤ 64 }
    requires a_fits { a < 2 ^ bits }
    requires b_fits { b < 2 ^ bits }
    ensures product { result ≡ a * b }
    ensures fits { result < 2 ^ (2 * bits) }
{
    a * b
}

// The bits, of twice as many, of the product of two values read with a sign.
fn signed_product(a: u128, b: u128, bits: u16) -> u128
    requires some { 1 ≤ bits }
    requires at_most { bits ≤ 64 }
    requires a_fits { a < 2 ^ bits }
    requires b_fits { b < 2 ^ bits }
    ensures { result ≡ unsigned (2 * bits) (signed bits a *ℤ signed bits b) }
{
    let size = product(size(a, bits), size(b, bits), bits);
    if is_below_zero(a, bits) == is_below_zero(b, bits) {
        size
    } else {
        negate(size, 2 * bits)
    }
}

/// The high half of the product of two values, read with a sign or without.
pub fn high_product(a: u128, b: u128, bits: u16, signed: bool) -> u128
    requires some { 1 ≤ bits }
    requires at_most { bits ≤ 64 }
    requires a_fits { a < 2 ^ bits }
    requires b_fits { b < 2 ^ bits }
    ensures { result ≡ (if signed then signed_high_product bits a b else unsigned_high_product bits a b) }
{
    let product = if signed {
        signed_product(a, b, bits)
    } else {
        product(a, b, bits)
    };
    part(product, bits, 1)
}
