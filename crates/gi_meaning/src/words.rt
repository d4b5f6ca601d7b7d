//! What the instructions of RISC-V compute on words.

ghost use Rattle.std.specs.Prelude.{◌≡◌, ◌%◌, ◌^◌, ◌<◌, ◌⊎◌, ℕ, List, [], ◌∷◌, if◌then◌else◌, ◌==◌};
ghost use Rattle.gi_llt.specs.Bits.{unsigned};
ghost use Rattle.gi_mir.specs.declared.operand.SymbolFlag.TheVariants as flag;
ghost use Rattle.gi_mir.specs.declared.opcode.Opcode as Opcode;
ghost use Rattle.gi_meaning.specs.Argument.{Value, Number, Symbol};
ghost use Rattle.gi_meaning.specs.Given.{one, Undefined};
ghost use Rattle.gi_meaning.specs.Machine as machine;
ghost use Rattle.gi_meaning.specs.Meaning.{meaning_of};
ghost use Rattle.gi_meaning.specs.Plain.{given_of};
ghost use Rattle.gi_meaning.specs.Words.{word_of, word_given};

use crate::bits::{bits_of, greatest};
use crate::casts::{sign_extended, sign_extended_in_register};
use crate::choices::is_less_signed;
use crate::divisions::{signed_quotient_of, signed_remainder_of};
use crate::gives::Gives;
use crate::shifts::{arithmetic_shift, power};
use crate::sums::{bit_of, low_difference, low_product, low_sum};
use gi_llt::{high_product, wrap};
use gi_mir::opcode::Opcode;
use gi_mir::operand::Flags;

/// An operation on two words.
#[derive(Clone, Copy, Debug, PartialEq, Eq)]
pub enum Operation {
    Sum,
    Difference,
    Product,
    And,
    Or,
    Xor,
    Less,
    LessUnsigned,
    Left,
    Right,
    ArithmeticRight,
    High,
    HighUnsigned,
    Quotient,
    QuotientUnsigned,
    Remainder,
    RemainderUnsigned,
}

/// The amount of a shift: that of a word modulo the width of a register.
pub fn amount(x: u16, b: u128) -> u16
    requires xlen { (x ≡ 32) ⊎ (x ≡ 64) }
    ensures value { result ≡ b % x }
    ensures bound { result < x }
{
    (b % u128::from(x)) as u16
}

/// The quotient of two words with signs, all ones by zero.
pub fn quotient(x: u16, a: u128, b: u128) -> u128
    requires xlen { (x ≡ 32) ⊎ (x ≡ 64) }
    requires a_fits { a < 2 ^ x }
    requires b_fits { b < 2 ^ x }
    ensures { result ≡ machine.quotient_word x a b }
{
    if b == 0 {
        greatest(x)
    } else {
        signed_quotient_of(x, a, b)
    }
}

/// The remainder of two words with signs, the dividend by zero.
pub fn remainder(x: u16, a: u128, b: u128) -> u128
    requires xlen { (x ≡ 32) ⊎ (x ≡ 64) }
    requires a_fits { a < 2 ^ x }
    requires b_fits { b < 2 ^ x }
    ensures { result ≡ machine.remainder_word x a b }
{
    if b == 0 {
        a
    } else {
        signed_remainder_of(x, a, b)
    }
}

/// What an operation on two words gives.
pub fn word(operation: Operation, x: u16, a: u128, b: u128) -> u128
    requires xlen { (x ≡ 32) ⊎ (x ≡ 64) }
    requires a_fits { a < 2 ^ x }
    requires b_fits { b < 2 ^ x }
    ensures { result ≡ word_of operation x a b }
{
    match operation {
        Operation::Sum => low_sum(x, a, b),
        Operation::Difference => low_difference(x, a, b),
        Operation::Product => low_product(x, a, b),
        Operation::And => a & b,
        Operation::Or => a | b,
        Operation::Xor => a ^ b,
        Operation::Less => bit_of(is_less_signed(x, a, b)),
        Operation::LessUnsigned => bit_of(a < b),
        Operation::Left => low_product(x, a, power(amount(x, b))),
        Operation::Right => a >> amount(x, b),
        Operation::ArithmeticRight => arithmetic_shift(x, a, amount(x, b)),
        Operation::High => high_product(a, b, x, true),
        Operation::HighUnsigned => high_product(a, b, x, false),
        Operation::Quotient => quotient(x, a, b),
        Operation::QuotientUnsigned => if b == 0 { greatest(x) } else { a / b },
        Operation::Remainder => remainder(x, a, b),
        Operation::RemainderUnsigned => if b == 0 { a } else { a % b },
    }
}

/// What an operation on the low halves of two words gives, where a register has 64 bits.
#[tactic(auto, using(crate::proofs::Immediates::word_below))]
pub fn on_low_half(operation: Operation, x: u16, a: u128, b: u128) -> Gives
    requires xlen { (x ≡ 32) ⊎ (x ≡ 64) }
    ensures { given_of result ≡ (if x == 64 then one (machine.on_low_half (word_of operation) x a b) else Undefined) }
{
    if x != 64 {
        return Gives::Undefined;
    }
    let low = word(operation, 32, wrap(a, 32), wrap(b, 32));
    Gives::One(sign_extended(32, x, low))
}

/// What an instruction gives of two registers.
pub fn of_registers(op: Opcode, flags: Flags, x: u16, a: u128, b: u128) -> Gives
    requires xlen { (x ≡ 32) ⊎ (x ≡ 64) }
    requires a_fits { a < 2 ^ x }
    requires b_fits { b < 2 ^ x }
    ensures { given_of result ≡ word_given (meaning_of flags op) x (Value x a ∷ Value x b ∷ []) }
{
    match op {
        Opcode::Add => Gives::One(word(Operation::Sum, x, a, b)),
        Opcode::Subtract => Gives::One(word(Operation::Difference, x, a, b)),
        Opcode::And => Gives::One(word(Operation::And, x, a, b)),
        Opcode::Or => Gives::One(word(Operation::Or, x, a, b)),
        Opcode::Xor => Gives::One(word(Operation::Xor, x, a, b)),
        Opcode::SetLess => Gives::One(word(Operation::Less, x, a, b)),
        Opcode::SetLessUnsigned => Gives::One(word(Operation::LessUnsigned, x, a, b)),
        Opcode::ShiftLeftLogical => Gives::One(word(Operation::Left, x, a, b)),
        Opcode::ShiftRightLogical => Gives::One(word(Operation::Right, x, a, b)),
        Opcode::ShiftRightArithmetic => Gives::One(word(Operation::ArithmeticRight, x, a, b)),
        Opcode::Multiply => Gives::One(word(Operation::Product, x, a, b)),
        Opcode::MultiplyHigh => Gives::One(word(Operation::High, x, a, b)),
        Opcode::MultiplyHighUnsigned => Gives::One(word(Operation::HighUnsigned, x, a, b)),
        Opcode::Divide => Gives::One(word(Operation::Quotient, x, a, b)),
        Opcode::DivideUnsigned => Gives::One(word(Operation::QuotientUnsigned, x, a, b)),
        Opcode::Remainder => Gives::One(word(Operation::Remainder, x, a, b)),
        Opcode::RemainderUnsigned => Gives::One(word(Operation::RemainderUnsigned, x, a, b)),
        Opcode::AddWord => on_low_half(Operation::Sum, x, a, b),
        Opcode::SubtractWord => on_low_half(Operation::Difference, x, a, b),
        Opcode::MultiplyWord => on_low_half(Operation::Product, x, a, b),
        Opcode::ShiftLeftLogicalWord => on_low_half(Operation::Left, x, a, b),
        Opcode::ShiftRightLogicalWord => on_low_half(Operation::Right, x, a, b),
        Opcode::ShiftRightArithmeticWord => on_low_half(Operation::ArithmeticRight, x, a, b),
        Opcode::DivideWord => on_low_half(Operation::Quotient, x, a, b),
        Opcode::DivideUnsignedWord => on_low_half(Operation::QuotientUnsigned, x, a, b),
        Opcode::RemainderWord => on_low_half(Operation::Remainder, x, a, b),
        Opcode::RemainderUnsignedWord => on_low_half(Operation::RemainderUnsigned, x, a, b),
        _ => Gives::Undefined,
    }
}

/// The word of a number with a sign.
#[tactic(auto, using(crate::proofs::Immediates::number_is))]
pub fn word_of_number(x: u16, number: i128) -> u128
    requires { (x ≡ 32) ⊎ (x ≡ 64) }
    ensures value { result ≡ unsigned x number }
    ensures bound { result < 2 ^ x }
{
    bits_of(x, number < 0, number.unsigned_abs())
}

/// Whether a number can stand as an immediate.
pub fn is_immediate(number: i128) -> bool
    ensures { result ≡ machine.is_immediate number }
{
    -2048 <= number && number <= 2047
}

/// Whether a number can stand as the amount of a shift.
pub fn is_amount(limit: u16, number: i128) -> bool
    ensures { result ≡ machine.is_amount limit number }
{
    0 <= number && number < i128::from(limit)
}

/// What an operation on a word and an immediate gives.
pub fn with_immediate(operation: Operation, x: u16, a: u128, number: i128) -> Gives
    requires xlen { (x ≡ 32) ⊎ (x ≡ 64) }
    requires fits { a < 2 ^ x }
    ensures { given_of result ≡ machine.on_immediate (word_of operation) x (Value x a ∷ Number number ∷ []) }
{
    if is_immediate(number) {
        Gives::One(word(operation, x, a, word_of_number(x, number)))
    } else {
        Gives::Undefined
    }
}

/// What a shift of a word by an amount gives.
pub fn by_amount(operation: Operation, x: u16, a: u128, number: i128) -> Gives
    requires xlen { (x ≡ 32) ⊎ (x ≡ 64) }
    requires fits { a < 2 ^ x }
    ensures { given_of result ≡ machine.by_amount (λ width. width) (word_of operation) x (Value x a ∷ Number number ∷ []) }
{
    if is_amount(x, number) {
        Gives::One(word(operation, x, a, word_of_number(x, number)))
    } else {
        Gives::Undefined
    }
}

/// What a shift of the low half of a word gives, where a register has 64 bits.
pub fn by_low_amount(operation: Operation, x: u16, a: u128, number: i128) -> Gives
    requires xlen { (x ≡ 32) ⊎ (x ≡ 64) }
    ensures { given_of result ≡ machine.on_rv64 (machine.by_amount (λ width. 32) (machine.on_low_half (word_of operation))) x (Value x a ∷ Number number ∷ []) }
{
    if is_amount(32, number) {
        on_low_half(operation, x, a, word_of_number(x, number))
    } else {
        Gives::Undefined
    }
}

/// What `ADDIW` gives, where a register has 64 bits.
pub fn low_sum_with_immediate(x: u16, a: u128, number: i128) -> Gives
    requires { (x ≡ 32) ⊎ (x ≡ 64) }
    ensures { given_of result ≡ machine.on_rv64 (machine.on_immediate (machine.on_low_half machine.sum_word)) x (Value x a ∷ Number number ∷ []) }
{
    if is_immediate(number) {
        on_low_half(Operation::Sum, x, a, word_of_number(x, number))
    } else {
        Gives::Undefined
    }
}

/// What an instruction gives of a register and a number.
pub fn of_immediate(op: Opcode, flags: Flags, x: u16, a: u128, number: i128) -> Gives
    requires xlen { (x ≡ 32) ⊎ (x ≡ 64) }
    requires fits { a < 2 ^ x }
    ensures { given_of result ≡ word_given (meaning_of flags op) x (Value x a ∷ Number number ∷ []) }
{
    match op {
        Opcode::AddImmediate => with_immediate(Operation::Sum, x, a, number),
        Opcode::SetLessImmediate => with_immediate(Operation::Less, x, a, number),
        Opcode::SetLessImmediateUnsigned => {
            with_immediate(Operation::LessUnsigned, x, a, number)
        }
        Opcode::AndImmediate => with_immediate(Operation::And, x, a, number),
        Opcode::OrImmediate => with_immediate(Operation::Or, x, a, number),
        Opcode::XorImmediate => with_immediate(Operation::Xor, x, a, number),
        Opcode::ShiftLeftLogicalImmediate => by_amount(Operation::Left, x, a, number),
        Opcode::ShiftRightLogicalImmediate => by_amount(Operation::Right, x, a, number),
        Opcode::ShiftRightArithmeticImmediate => {
            by_amount(Operation::ArithmeticRight, x, a, number)
        }
        Opcode::AddImmediateWord => low_sum_with_immediate(x, a, number),
        Opcode::ShiftLeftLogicalImmediateWord => by_low_amount(Operation::Left, x, a, number),
        Opcode::ShiftRightLogicalImmediateWord => by_low_amount(Operation::Right, x, a, number),
        Opcode::ShiftRightArithmeticImmediateWord => {
            by_low_amount(Operation::ArithmeticRight, x, a, number)
        }
        _ => Gives::Undefined,
    }
}

/// What `LUI` gives of a number of 20 bits.
pub fn upper_word(x: u16, number: u128) -> u128
    requires xlen { (x ≡ 32) ⊎ (x ≡ 64) }
    requires fits { number < 2 ^ 20 }
    ensures { result ≡ machine.upper_word x number }
{
    sign_extended(32, x, 4096 * number)
}

/// What an instruction gives of a number alone.
pub fn of_number(op: Opcode, flags: Flags, x: u16, number: i128) -> Gives
    requires { (x ≡ 32) ⊎ (x ≡ 64) }
    ensures { given_of result ≡ word_given (meaning_of flags op) x (Number number ∷ []) }
{
    match op {
        Opcode::LoadUpperImmediate => {
            if 0 <= number && number < 1_048_576 {
                Gives::One(upper_word(x, number as u128))
            } else {
                Gives::Undefined
            }
        }
        _ => Gives::Undefined,
    }
}

/// The signed rest of an address, from -2048 to 2047, as a word.
pub fn rest_of(x: u16, address: u128) -> u128
    requires { (x ≡ 32) ⊎ (x ≡ 64) }
    ensures { result ≡ machine.rest_of x address }
{
    sign_extended_in_register(x, address, 12)
}

/// The address rounded to the nearest 4096, without its low 12 bits, modulo `2 ^ 20`.
pub fn upper_of(address: u128) -> u128
    requires { address < 2 ^ 64 }
    ensures value { result ≡ machine.upper_of address }
    ensures bound { result < 2 ^ 20 }
{
    (address + 2048) / 4096 % 1_048_576
}

/// What `ADDI` gives of a register and the low part of a symbol's address.
pub fn with_low_part(flags: Flags, x: u16, a: u128, address: u128) -> Gives
    requires { (x ≡ 32) ⊎ (x ≡ 64) }
    ensures { (name : List ℕ) → given_of result ≡ word_given (meaning_of flags Opcode.AddImmediate) x (Value x a ∷ Symbol flag.Lo name address ∷ []) }
{
    Gives::One(low_sum(x, a, rest_of(x, address)))
}

/// What `LUI` gives of the high part of a symbol's address.
pub fn high_part(flags: Flags, x: u16, address: u128) -> Gives
    requires xlen { (x ≡ 32) ⊎ (x ≡ 64) }
    requires fits { address < 2 ^ 64 }
    ensures { (name : List ℕ) → given_of result ≡ word_given (meaning_of flags Opcode.LoadUpperImmediate) x (Symbol flag.Hi name address ∷ []) }
{
    Gives::One(upper_word(x, upper_of(address)))
}
