//! What each generic opcode gives, by how many registers it reads.

ghost use Rattle.std.specs.Prelude.{◌≡◌, ◌^◌, ◌<◌, ◌≤◌, true, [], ◌∷◌};
ghost use Rattle.gi_meaning.specs.Act.{copied};
ghost use Rattle.gi_meaning.specs.Argument.{Value};
ghost use Rattle.gi_meaning.specs.Fold.{gives_of};
ghost use Rattle.gi_meaning.specs.Meaning.{meaning_of};
ghost use Rattle.gi_meaning.specs.Plain.{given_of, is_plain};

use crate::casts::{any_extension, sign_extended, zero_extension};
use crate::choices::{absolute, better};
use crate::counts::{byte_swap, count_not_of_zero, leading_zeros, ones, trailing_zeros};
use crate::divisions::{signed_quotient, signed_remainder, unsigned_quotient, unsigned_remainder};
use crate::gives::Gives;
use crate::shifts::{
    arithmetically_shifted_right, funnel_left, funnel_right, shifted_left, shifted_right,
};
use crate::sums::{difference, low_sum, product, sum, unless_broken};
use gi_llt::wrap;
use gi_mir::opcode::Opcode;
use gi_mir::operand::{Flags, Pred};

/// What a copy gives.
pub fn copied(m: u16, n: u16, a: u128) -> Gives
    requires positive { 0 < n }
    requires limit { n ≤ 128 }
    ensures { given_of result ≡ copied m n a }
{
    if m < n {
        Gives::LowBits {
            known: m,
            width: n,
            value: a,
        }
    } else if m == n {
        Gives::One(a)
    } else {
        Gives::One(wrap(a, n))
    }
}

/// What an opcode gives of one register of `m` bits, as a result of `n` bits.
pub fn unary(op: Opcode, flags: Flags, m: u16, n: u16, a: u128) -> Gives
    requires m_positive { 0 < m }
    requires m_limit { m ≤ 128 }
    requires n_positive { 0 < n }
    requires n_limit { n ≤ 128 }
    requires fits { a < 2 ^ m }
    requires plain { is_plain op ≡ true }
    ensures { given_of result ≡ gives_of (meaning_of flags op) (n ∷ []) (Value m a ∷ []) }
{
    match op {
        Opcode::Copy => copied(m, n, a),
        Opcode::GenericFreeze | Opcode::GenericFrameIndex => Gives::One(a),
        Opcode::GenericPointerToInteger
        | Opcode::GenericIntegerToPointer
        | Opcode::GenericTruncate => Gives::One(wrap(a, n)),
        Opcode::GenericAnyExtend => any_extension(m, n, a),
        Opcode::GenericZeroExtend => zero_extension(flags, m, n, a),
        Opcode::GenericSignExtend => Gives::One(sign_extended(m, n, a)),
        Opcode::GenericAbsolute => Gives::One(absolute(m, n, a)),
        Opcode::GenericCountLeadingZeros => Gives::One(leading_zeros(m, a)),
        Opcode::GenericCountTrailingZeros => Gives::One(trailing_zeros(m, a)),
        Opcode::GenericPopulationCount => Gives::One(ones(m, a)),
        Opcode::GenericCountLeadingZerosNotOfZero => {
            count_not_of_zero(n, a, leading_zeros(m, a))
        }
        Opcode::GenericCountTrailingZerosNotOfZero => {
            count_not_of_zero(n, a, trailing_zeros(m, a))
        }
        Opcode::GenericByteSwap => Gives::One(byte_swap(m, a)),
        _ => Gives::Undefined,
    }
}

/// What an opcode gives of two registers of `n` bits, as a result of `n` bits.
pub fn binary(op: Opcode, flags: Flags, n: u16, a: u128, b: u128) -> Gives
    requires positive { 0 < n }
    requires limit { n ≤ 128 }
    requires a_fits { a < 2 ^ n }
    requires b_fits { b < 2 ^ n }
    requires plain { is_plain op ≡ true }
    ensures { given_of result ≡ gives_of (meaning_of flags op) (n ∷ []) (Value n a ∷ Value n b ∷ []) }
{
    match op {
        Opcode::GenericPointerAdd => Gives::One(low_sum(n, a, b)),
        Opcode::GenericAdd => sum(flags, n, a, b),
        Opcode::GenericSubtract => difference(flags, n, a, b),
        Opcode::GenericMultiply => product(flags, n, a, b),
        Opcode::GenericAnd => Gives::One(a & b),
        Opcode::GenericOr => unless_broken(flags.disjoint && a & b != 0, n, a | b),
        Opcode::GenericXor => Gives::One(a ^ b),
        Opcode::GenericUnsignedDivide => unsigned_quotient(flags, n, a, b),
        Opcode::GenericSignedDivide => signed_quotient(flags, n, a, b),
        Opcode::GenericUnsignedRemainder => unsigned_remainder(n, a, b),
        Opcode::GenericSignedRemainder => signed_remainder(n, a, b),
        Opcode::GenericShiftLeft => shifted_left(flags, n, a, b),
        Opcode::GenericLogicalShiftRight => shifted_right(flags, n, a, b),
        Opcode::GenericArithmeticShiftRight => arithmetically_shifted_right(flags, n, a, b),
        Opcode::GenericSignedMinimum => Gives::One(better(Pred::Slt, n, a, b)),
        Opcode::GenericSignedMaximum => Gives::One(better(Pred::Sgt, n, a, b)),
        Opcode::GenericUnsignedMinimum => Gives::One(better(Pred::Ult, n, a, b)),
        Opcode::GenericUnsignedMaximum => Gives::One(better(Pred::Ugt, n, a, b)),
        Opcode::GenericRotateLeft => Gives::One(funnel_left(n, a, a, b)),
        Opcode::GenericRotateRight => Gives::One(funnel_right(n, a, a, b)),
        _ => Gives::Undefined,
    }
}
