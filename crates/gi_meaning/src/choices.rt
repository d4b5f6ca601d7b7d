//! Comparisons of values, and choices between them.

ghost use Rattle.std.specs.Prelude.{◌≡◌, ◌+◌, ◌-◌, ◌^◌, ◌<◌, ◌≤◌, int_lt, int_le, pos, nat_abs, if◌then◌else◌, ◌==◌};
ghost use Rattle.gi_llt.specs.Bits.{signed, unsigned};
ghost use Rattle.gi_meaning.specs.Generic as generic;

use crate::bits::{is_negative, size};
use gi_llt::wrap;
use gi_mir::operand::Pred;

/// Whether the first value is less than the second where both are read with a sign.
#[tactic(auto, using(crate::proofs::Order::less_low_high, crate::proofs::Order::less_high_low, crate::proofs::Order::less_alike))]
pub fn is_less_signed(n: u16, a: u128, b: u128) -> bool
    requires positive { 0 < n }
    requires limit { n ≤ 128 }
    requires a_fits { a < 2 ^ n }
    requires b_fits { b < 2 ^ n }
    ensures { result ≡ int_lt (signed n a) (signed n b) }
{
    let a_negative = is_negative(n, a);
    let b_negative = is_negative(n, b);
    if a_negative && !b_negative {
        true
    } else if !a_negative && b_negative {
        false
    } else {
        a < b
    }
}

/// Whether the first value is at most the second where both are read with a sign.
#[tactic(auto, using(crate::proofs::Order::at_most_is))]
pub fn is_at_most_signed(n: u16, a: u128, b: u128) -> bool
    requires positive { 0 < n }
    requires limit { n ≤ 128 }
    requires a_fits { a < 2 ^ n }
    requires b_fits { b < 2 ^ n }
    ensures { result ≡ int_le (signed n a) (signed n b) }
{
    !is_less_signed(n, b, a)
}

/// Whether a predicate holds of two values.
pub fn holds(pred: Pred, n: u16, a: u128, b: u128) -> bool
    requires positive { 0 < n }
    requires limit { n ≤ 128 }
    requires a_fits { a < 2 ^ n }
    requires b_fits { b < 2 ^ n }
    ensures { result ≡ generic.holds pred n a b }
{
    match pred {
        Pred::Eq => a == b,
        Pred::Ne => a != b,
        Pred::Ugt => b < a,
        Pred::Uge => b <= a,
        Pred::Ult => a < b,
        Pred::Ule => a <= b,
        Pred::Sgt => is_less_signed(n, b, a),
        Pred::Sge => is_at_most_signed(n, b, a),
        Pred::Slt => is_less_signed(n, a, b),
        Pred::Sle => is_at_most_signed(n, a, b),
    }
}

/// The first of two values where a predicate holds of them, and else the second.
pub fn better(pred: Pred, n: u16, a: u128, b: u128) -> u128
    requires positive { 0 < n }
    requires limit { n ≤ 128 }
    requires a_fits { a < 2 ^ n }
    requires b_fits { b < 2 ^ n }
    ensures { result ≡ generic.better pred n a b }
{
    if holds(pred, n, a, b) { a } else { b }
}

/// The first of two values where a condition isn't 0, and else the second.
pub fn selected(condition: u128, a: u128, b: u128) -> u128
    ensures { result ≡ (if condition == 0 then b else a) }
{
    if condition == 0 { b } else { a }
}

/// The size of a value of `m` bits that is read with a sign, as one of `n` bits.
pub fn absolute(m: u16, n: u16, a: u128) -> u128
    requires m_positive { 0 < m }
    requires m_limit { m ≤ 128 }
    requires n_positive { 0 < n }
    requires n_limit { n ≤ 128 }
    requires fits { a < 2 ^ m }
    ensures { result ≡ unsigned n (pos (nat_abs (signed m a))) }
{
    wrap(size(m, a), n)
}
