//! Values shifted and rotated.

ghost use Rattle.std.specs.Prelude.{◌≡◌, ◌+◌, ◌-◌, ◌*◌, ◌/◌, ◌%◌, ◌^◌, ◌<◌, ◌≤◌, pos, ◌*ℤ◌};
ghost use Rattle.gi_llt.specs.Bits.{signed};
ghost use Rattle.gi_meaning.specs.Generic as generic;
ghost use Rattle.gi_meaning.specs.Given.{free as any_of};
ghost use Rattle.gi_meaning.specs.Plain.{given_of};

use crate::bits::{greatest, is_negative, size};
use crate::gives::Gives;
use crate::sums::{low_product, product_has_more_bits, product_leaves_signed, unless_broken};
use gi_llt::wrap;
use gi_mir::operand::Flags;

/// Any value of so many bits.
pub fn free(n: u16) -> Gives
    ensures { given_of result ≡ any_of n }
{
    Gives::LowBits {
        known: 0,
        width: n,
        value: 0,
    }
}

/// The place of a bit as a number.
pub fn power(k: u16) -> u128
    requires { k < 128 }
    ensures { result ≡ 2 ^ k }
{
    1u128 << k
}

/// Whether a shift to the left leaves the values with a sign.
#[tactic(auto, using(crate::proofs::Shifting::signed_shift))]
pub fn shift_leaves_signed(n: u16, a: u128, k: u16) -> bool
    requires positive { 0 < n }
    requires limit { n ≤ 128 }
    requires a_fits { a < 2 ^ n }
    requires amount { k < n }
    ensures { result ≡ generic.leaves_signed n (signed n a *ℤ pos (2 ^ k)) }
{
    product_leaves_signed(n, is_negative(n, a), size(n, a), power(k))
}

/// A value shifted left by less than its width.
pub fn left(flags: Flags, n: u16, a: u128, k: u16) -> Gives
    requires positive { 0 < n }
    requires limit { n ≤ 128 }
    requires a_fits { a < 2 ^ n }
    requires amount { k < n }
    ensures { given_of result ≡ generic.shifted_left flags n a k }
{
    let broken = flags.nuw && product_has_more_bits(n, a, power(k))
        || flags.nsw && shift_leaves_signed(n, a, k);
    unless_broken(broken, n, low_product(n, a, power(k)))
}

/// What `G_SHL` gives.
pub fn shifted_left(flags: Flags, n: u16, a: u128, k: u128) -> Gives
    requires positive { 0 < n }
    requires limit { n ≤ 128 }
    requires a_fits { a < 2 ^ n }
    ensures { given_of result ≡ generic.shifted_left flags n a k }
{
    if k < u128::from(n) {
        left(flags, n, a, k as u16)
    } else {
        free(n)
    }
}

/// Whether a bit that is shifted out to the right isn't zero.
pub fn loses_bits(a: u128, k: u16) -> bool
    requires { k < 128 }
    ensures { result ≡ generic.loses_bits a k }
{
    a % power(k) != 0
}

/// What `G_LSHR` gives.
pub fn shifted_right(flags: Flags, n: u16, a: u128, k: u128) -> Gives
    requires limit { n ≤ 128 }
    ensures { given_of result ≡ generic.shifted_right flags n a k }
{
    if k >= u128::from(n) {
        free(n)
    } else {
        let amount = k as u16;
        unless_broken(flags.exact && loses_bits(a, amount), n, a >> amount)
    }
}

/// A value shifted right, with the sign bit coming in from the left.
#[tactic(auto, using(crate::proofs::Shifting::arithmetic_low, crate::proofs::Shifting::arithmetic_high))]
pub fn arithmetic_shift(n: u16, a: u128, k: u16) -> u128
    requires positive { 0 < n }
    requires limit { n ≤ 128 }
    requires a_fits { a < 2 ^ n }
    requires amount { k < 128 }
    ensures { result ≡ generic.arithmetic_shift_of n a k }
{
    if is_negative(n, a) {
        greatest(n) - ((greatest(n) - a) >> k)
    } else {
        a >> k
    }
}

/// What `G_ASHR` gives.
pub fn arithmetically_shifted_right(flags: Flags, n: u16, a: u128, k: u128) -> Gives
    requires positive { 0 < n }
    requires limit { n ≤ 128 }
    requires a_fits { a < 2 ^ n }
    ensures { given_of result ≡ generic.arithmetically_shifted_right flags n a k }
{
    if k >= u128::from(n) {
        free(n)
    } else {
        let amount = k as u16;
        let value = arithmetic_shift(n, a, amount);
        unless_broken(flags.exact && loses_bits(a, amount), n, value)
    }
}

/// The low `n - s` bits of the first value above the high `s` bits of the second.
pub fn joined(n: u16, a: u128, b: u128, s: u16) -> u128
    requires limit { n ≤ 128 }
    requires b_fits { b < 2 ^ n }
    requires some { 0 < s }
    requires less { s < n }
    ensures { result ≡ a % 2 ^ (n - s) * 2 ^ s + b / 2 ^ (n - s) }
{
    (wrap(a, n - s) << s) + (b >> (n - s))
}

/// What `G_FSHL` gives: the high half of one value above another, shifted left.
#[tactic(auto, using(crate::proofs::Shifting::funnel_left_none, crate::proofs::Shifting::funnel_left_some))]
pub fn funnel_left(n: u16, a: u128, b: u128, k: u128) -> u128
    requires positive { 0 < n }
    requires limit { n ≤ 128 }
    requires a_fits { a < 2 ^ n }
    requires b_fits { b < 2 ^ n }
    ensures { result ≡ generic.funnel_left n a b k }
{
    let s = (k % u128::from(n)) as u16;
    if s == 0 { a } else { joined(n, a, b, s) }
}

/// What `G_FSHR` gives: the low half of one value above another, shifted right.
#[tactic(auto, using(crate::proofs::Shifting::funnel_right_none, crate::proofs::Shifting::funnel_right_some))]
pub fn funnel_right(n: u16, a: u128, b: u128, k: u128) -> u128
    requires positive { 0 < n }
    requires limit { n ≤ 128 }
    requires a_fits { a < 2 ^ n }
    requires b_fits { b < 2 ^ n }
    ensures { result ≡ generic.funnel_right n a b k }
{
    let s = (k % u128::from(n)) as u16;
    if s == 0 { b } else { joined(n, a, b, n - s) }
}
