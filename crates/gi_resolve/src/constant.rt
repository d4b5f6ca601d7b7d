//! The constants and whole numbers that are written.

ghost use Rattle.std.specs.Prelude.{◌≡◌, ◌-◌, ◌^◌, min, true};
ghost use Rattle.gi_spelling.specs.Resolved.{constant_value, is_below_zero, is_in_width, resolved_constant, resolved_truth, whole_number};

use gi_mir::operand::Operand;
use gi_text::Number;

/// The greatest number of so many bits, as far as 128 bits hold that.
fn greatest(bits: u16) -> u128
    ensures { result ≡ 2 ^ min bits 128 - 1 }
{
    if bits >= 128 {
        u128::MAX
    } else {
        (1u128 << bits) - 1
    }
}

/// Whether a number is below zero.
fn is_below_zero(number: Number) -> bool
    ensures { result ≡ is_below_zero number }
{
    number.negative && number.size != 0
}

/// Whether a constant lies from -2^(N-1) to 2^N - 1.
fn is_in_width(bits: u16, number: Number) -> bool
    ensures { result ≡ is_in_width bits number }
{
    if is_below_zero(number) {
        bits > 0 && number.size - 1 <= greatest(bits - 1)
    } else {
        number.size <= greatest(bits)
    }
}

/// A constant modulo 2^N, or modulo 2^128 where N is greater.
fn constant_value(bits: u16, number: Number) -> u128
    requires { is_in_width bits number ≡ true }
    ensures { result ≡ constant_value bits number }
{
    if is_below_zero(number) {
        greatest(bits) - (number.size - 1)
    } else {
        number.size
    }
}

/// A constant, where its width holds it.
pub(crate) fn constant(bits: u16, number: Number) -> Option<Operand>
    ensures { result ≡ resolved_constant bits number }
{
    if is_in_width(bits, number) {
        Some(Operand::Constant(bits, constant_value(bits, number)))
    } else {
        None
    }
}

/// `true` or `false`, of one bit.
pub(crate) fn truth(bits: u16, truth: bool) -> Option<Operand>
    ensures { result ≡ resolved_truth bits truth }
{
    if bits == 1 {
        Some(Operand::Constant(1, u128::from(truth)))
    } else {
        None
    }
}

/// A whole number, where one past the ends counts as the nearer end.
pub(crate) fn whole_number(number: Number) -> i128
    ensures { result ≡ whole_number number }
{
    let is_within = number.size < 1u128 << 127;
    if number.negative {
        if is_within {
            -(number.size as i128)
        } else {
            i128::MIN
        }
    } else if is_within {
        number.size as i128
    } else {
        i128::MAX
    }
}
