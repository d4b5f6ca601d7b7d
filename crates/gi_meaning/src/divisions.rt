//! Quotients and remainders of values.

ghost use Rattle.std.specs.Prelude.{◌≡◌, ◌+◌, ◌-◌, ◌*◌, ◌/◌, ◌%◌, ◌^◌, ◌<◌, ◌≤◌, int_div, int_rem, ◌==◌, nat_abs, not};
ghost use Rattle.gi_llt.specs.Bits.{signed, unsigned};
ghost use Rattle.gi_meaning.specs.Generic as generic;
ghost use Rattle.gi_meaning.specs.Plain.{given_of};

use crate::bits::{bits_of, greatest, is_negative, sign_bit, size};
use crate::gives::Gives;
use crate::sums::{differ, unless_broken};
use gi_mir::operand::Flags;

/// What `G_UDIV` gives.
pub fn unsigned_quotient(flags: Flags, n: u16, a: u128, b: u128) -> Gives
    ensures { given_of result ≡ generic.unsigned_quotient flags n a b }
{
    if b == 0 {
        return Gives::Undefined;
    }
    unless_broken(flags.exact && a % b != 0, n, a / b)
}

/// What `G_UREM` gives.
pub fn unsigned_remainder(n: u16, a: u128, b: u128) -> Gives
    ensures { given_of result ≡ generic.unsigned_remainder n a b }
{
    if b == 0 {
        return Gives::Undefined;
    }
    Gives::One(a % b)
}

/// Whether a division is that of the least value by -1.
pub fn overflows_division(n: u16, a: u128, b: u128) -> bool
    requires positive { 0 < n }
    requires limit { n ≤ 128 }
    ensures { result ≡ generic.overflows_division n a b }
{
    a == sign_bit(n) && b == greatest(n)
}

/// The quotient of two values with signs, rounded toward zero.
#[tactic(auto, using(crate::proofs::Quotients::signed_quotient_is))]
pub fn signed_quotient_of(n: u16, a: u128, b: u128) -> u128
    requires positive { 0 < n }
    requires limit { n ≤ 128 }
    requires a_fits { a < 2 ^ n }
    requires b_fits { b < 2 ^ n }
    requires nonzero { 0 < b }
    ensures { result ≡ unsigned n (int_div (signed n a) (signed n b)) }
{
    let negative = differ(is_negative(n, a), is_negative(n, b));
    bits_of(n, negative, size(n, a) / size(n, b))
}

/// The remainder of two values with signs, which has the dividend's sign.
#[tactic(auto, using(crate::proofs::Quotients::signed_remainder_is))]
pub fn signed_remainder_of(n: u16, a: u128, b: u128) -> u128
    requires positive { 0 < n }
    requires limit { n ≤ 128 }
    requires a_fits { a < 2 ^ n }
    requires b_fits { b < 2 ^ n }
    requires nonzero { 0 < b }
    ensures { result ≡ unsigned n (int_rem (signed n a) (signed n b)) }
{
    bits_of(n, is_negative(n, a), size(n, a) % size(n, b))
}

/// Whether a division of two values with signs leaves a remainder.
#[tactic(auto, using(crate::proofs::Quotients::size_positive))]
pub fn leaves_remainder(n: u16, a: u128, b: u128) -> bool
    requires positive { 0 < n }
    requires limit { n ≤ 128 }
    requires a_fits { a < 2 ^ n }
    requires b_fits { b < 2 ^ n }
    requires nonzero { 0 < b }
    ensures { result ≡ not (nat_abs (signed n a) % nat_abs (signed n b) == 0) }
{
    size(n, a) % size(n, b) != 0
}

/// What `G_SDIV` gives.
pub fn signed_quotient(flags: Flags, n: u16, a: u128, b: u128) -> Gives
    requires positive { 0 < n }
    requires limit { n ≤ 128 }
    requires a_fits { a < 2 ^ n }
    requires b_fits { b < 2 ^ n }
    ensures { given_of result ≡ generic.signed_quotient flags n a b }
{
    if b == 0 || overflows_division(n, a, b) {
        return Gives::Undefined;
    }
    let broken = flags.exact && leaves_remainder(n, a, b);
    unless_broken(broken, n, signed_quotient_of(n, a, b))
}

/// What `G_SREM` gives.
pub fn signed_remainder(n: u16, a: u128, b: u128) -> Gives
    requires positive { 0 < n }
    requires limit { n ≤ 128 }
    requires a_fits { a < 2 ^ n }
    requires b_fits { b < 2 ^ n }
    ensures { given_of result ≡ generic.signed_remainder n a b }
{
    if b == 0 || overflows_division(n, a, b) {
        return Gives::Undefined;
    }
    Gives::One(signed_remainder_of(n, a, b))
}
