//! Counts of bits, and the order of bytes.

ghost use Rattle.std.specs.Prelude.{◌≡◌, ◌+◌, ◌-◌, ◌*◌, ◌/◌, ◌^◌, ◌<◌, ◌≤◌, if◌then◌else◌, ◌==◌};
ghost use Rattle.gi_meaning.specs.Generic as generic;
ghost use Rattle.gi_meaning.specs.Given.{free as any_of, one};
ghost use Rattle.gi_meaning.specs.Plain.{given_of};

use crate::gives::Gives;
use crate::shifts::{free, power};

/// The zeros above the highest one among the low `n` bits.
#[tactic(auto, using(crate::proofs::Counting::leading_zeros_le, crate::proofs::Counting::leading_more, crate::proofs::Counting::leading_end, crate::proofs::Counting::leading_none))]
pub fn leading_zeros(n: u16, a: u128) -> u128
    requires { n ≤ 128 }
    ensures value { result ≡ generic.leading_zeros n a }
    ensures bound { result ≤ n }
{
    for i in 0..n {
        if a >= power(n - 1 - i) {
            return u128::from(i);
        }
    }
    u128::from(n)
}

/// The zeros below the lowest one among the low `n` bits.
#[tactic(auto, using(crate::proofs::Counting::trailing_zeros_le, crate::proofs::Counting::trailing_more, crate::proofs::Counting::trailing_end, crate::proofs::Counting::trailing_none))]
pub fn trailing_zeros(n: u16, a: u128) -> u128
    requires { n ≤ 128 }
    ensures value { result ≡ generic.trailing_zeros n a }
    ensures bound { result ≤ n }
{
    let mut rest = a;
    for i in 0..n {
        if rest % 2 != 0 {
            return u128::from(i);
        }
        rest /= 2;
    }
    u128::from(n)
}

/// The ones among the low `n` bits.
#[tactic(auto, using(crate::proofs::Counting::ones_more, crate::proofs::Counting::ones_none))]
pub fn ones(n: u16, a: u128) -> u128
    requires { n ≤ 128 }
    ensures value { result ≡ generic.ones n a }
    ensures bound { result ≤ n }
{
    let mut rest = a;
    let mut count: u128 = 0;
    for _i in 0..n {
        count += rest % 2;
        rest /= 2;
    }
    count
}

/// A count, or any value of `n` bits where it is one of zero.
pub fn count_not_of_zero(n: u16, a: u128, count: u128) -> Gives
    ensures { given_of result ≡ (if a == 0 then any_of n else one count) }
{
    if a == 0 { free(n) } else { Gives::One(count) }
}

/// So many low bytes, the lowest first in the highest place.
#[tactic(auto, using(crate::proofs::Counting::reversed_more, crate::proofs::Counting::reversed_none, crate::proofs::Counting::byte_more, crate::proofs::Counting::bytes_fit))]
pub fn reversed_bytes(bytes: u16, a: u128) -> u128
    requires { bytes ≤ 16 }
    ensures value { result ≡ generic.reversed_bytes bytes a }
    ensures bound { result < 256 ^ bytes }
{
    let mut rest = a;
    let mut reversed: u128 = 0;
    for _i in 0..bytes {
        reversed = reversed * 256 + rest % 256;
        rest /= 256;
    }
    reversed
}

/// What `G_BSWAP` gives.
pub fn byte_swap(n: u16, a: u128) -> u128
    requires { n ≤ 128 }
    ensures { result ≡ generic.byte_swap_of n a }
{
    reversed_bytes(n / 8, a)
}
