//! Values cut and extended.

ghost use Rattle.std.specs.Prelude.{◌≡◌, ◌+◌, ◌-◌, ◌^◌, ◌<◌, ◌≤◌};
ghost use Rattle.gi_llt.specs.Bits.{sign_extended, wrapped};
ghost use Rattle.gi_meaning.specs.Generic as generic;
ghost use Rattle.gi_meaning.specs.Given.{in_low_bits};
ghost use Rattle.gi_meaning.specs.Plain.{given_of};

use crate::bits::{bits_of, is_negative, size};
use crate::gives::Gives;
use gi_llt::wrap;
use gi_mir::operand::Flags;

/// Bit `m - 1` copied upward, up to `n` bits.
#[tactic(auto, using(crate::proofs::Numbers::extended_is))]
pub fn sign_extended(m: u16, n: u16, a: u128) -> u128
    requires m_positive { 0 < m }
    requires m_limit { m ≤ 128 }
    requires n_positive { 0 < n }
    requires n_limit { n ≤ 128 }
    requires fits { a < 2 ^ m }
    ensures { result ≡ sign_extended m n a }
{
    bits_of(n, is_negative(m, a), size(m, a))
}

/// What `G_ZEXT` gives.
pub fn zero_extension(flags: Flags, m: u16, n: u16, a: u128) -> Gives
    requires m_positive { 0 < m }
    requires m_limit { m ≤ 128 }
    ensures { given_of result ≡ generic.zero_extension flags m n a }
{
    if flags.nneg && is_negative(m, a) {
        any_extension(m, n, a)
    } else {
        Gives::One(a)
    }
}

/// What `G_ANYEXT` gives.
pub fn any_extension(m: u16, n: u16, a: u128) -> Gives
    ensures { given_of result ≡ in_low_bits m n a }
{
    if m < n {
        Gives::LowBits {
            known: m,
            width: n,
            value: a,
        }
    } else if m == n {
        Gives::One(a)
    } else {
        Gives::Undefined
    }
}

/// What `G_SEXT_INREG` gives.
pub fn sign_extended_in_register(n: u16, a: u128, k: u16) -> u128
    requires n_positive { 0 < n }
    requires n_limit { n ≤ 128 }
    requires k_positive { 0 < k }
    requires k_limit { k ≤ 128 }
    ensures { result ≡ sign_extended k n (wrapped k a) }
{
    sign_extended(k, n, wrap(a, k))
}
