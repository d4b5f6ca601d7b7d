//! What the plain programs give for a row of an opcode.

ghost use Rattle.std.specs.Prelude.{◌≡◌, ◌⊎◌};

use crate::reading::{flags_of, pred_of, text_of, text_of_all, types_of, values_of};
use gi_llt::{Llt, Target};
use gi_meaning::bits::has_bits;
use gi_meaning::casts::sign_extended_in_register;
use gi_meaning::fold::{fold, given};
use gi_meaning::gives::Gives;
use gi_meaning::parts::parts_of;
use gi_meaning::sums::{difference_with_borrow, sum_with_carry};
use gi_mir::opcode::Opcode;
use gi_mir::operand::{Flags, Pred};
use std::alloc::{AllocError, Global};

/// The target of a row: a high product of 32 bits is that of riscv32.
fn target_of(op: Opcode, results: &[Llt]) -> Target
    ensures { (result.xlen ≡ 32) ⊎ (result.xlen ≡ 64) }
{
    let high = matches!(
        op,
        Opcode::GenericUnsignedMultiplyHigh | Opcode::GenericSignedMultiplyHigh
    );
    let narrow = matches!(results, [Llt::Scalar(32)]);
    let xlen = if high && narrow { 32 } else { 64 };
    Target { xlen, zbb: false }
}

/// What a sum or a difference with a carry gives of values of `n` bits.
fn carried(op: Opcode, n: u16, a: u128, b: u128, carry: u128) -> Gives {
    if n == 0 || 128 < n || 1 < carry || !has_bits(n, a) || !has_bits(n, b) {
        return Gives::Undefined;
    }
    match op {
        Opcode::GenericUnsignedAddOverflow | Opcode::GenericUnsignedAddCarry => {
            sum_with_carry(n, a, b, carry)
        }
        Opcode::GenericUnsignedSubtractOverflow | Opcode::GenericUnsignedSubtractBorrow => {
            difference_with_borrow(n, a, b, carry)
        }
        _ => Gives::Undefined,
    }
}

/// What an extension in a register from `k` bits to `n` gives.
fn extended(n: u16, k: u16, a: u128) -> Gives {
    if n == 0 || 128 < n || k == 0 || 128 < k {
        return Gives::Undefined;
    }
    Gives::One(sign_extended_in_register(n, a, k))
}

/// What an operation gives that has one result and reads registers alone.
fn computed(
    op: Opcode,
    flags: Flags,
    pred: Option<Pred>,
    outcome: Llt,
    types: &[Llt],
    values: &[u128],
) -> Gives {
    let target = target_of(op, &[outcome]);
    let gives = given(op, flags, pred, outcome, target, types, values).unwrap_or(Gives::Undefined);
    match fold(op, flags, pred, outcome, target, types, values) {
        Some(value) => Gives::One(value),
        None => gives,
    }
}

/// What an opcode of one or two results gives.
fn gives_of(
    op: Opcode,
    flags: Flags,
    test: &str,
    results: &[Llt],
    types: &[Llt],
    values: &[u128],
) -> Gives {
    match (results, values) {
        ([Llt::Scalar(n), Llt::Scalar(1)], [a, b]) => carried(op, *n, *a, *b, 0),
        ([Llt::Scalar(n), Llt::Scalar(1)], [a, b, carry]) => carried(op, *n, *a, *b, *carry),
        ([Llt::Scalar(n)], [a]) if op == Opcode::GenericSignExtendInRegister => {
            extended(*n, test.parse::<u16>().unwrap_or(0), *a)
        }
        ([outcome], _) => computed(op, flags, pred_of(test), *outcome, types, values),
        _ => Gives::Undefined,
    }
}

/// The parts of a value, as a table writes them.
fn parts_text(alloc: Global, results: &[Llt], values: &[u128]) -> Result<String, AllocError> {
    let mut widths = Vec::new(alloc);
    for ty in results {
        widths.push(gi_mir::types::scalar_bits(*ty))?;
    }
    match values {
        [value] => {
            let parts = parts_of(alloc, widths.as_slice(), *value)?;
            text_of_all(alloc, parts.as_slice())
        }
        _ => String::from_str(alloc, "undefined"),
    }
}

/// What the plain programs give for a row, as the table writes it.
pub fn opcode_result(
    alloc: Global,
    op: Opcode,
    flag: &str,
    test: &str,
    results: &str,
    sources: &str,
    values: &str,
) -> Result<String, AllocError> {
    let results = types_of(alloc, results)?;
    let types = types_of(alloc, sources)?;
    let values = values_of(alloc, values)?;
    if op == Opcode::GenericUnmergeValues {
        return parts_text(alloc, results.as_slice(), values.as_slice());
    }
    let gives = gives_of(
        op,
        flags_of(flag),
        test,
        results.as_slice(),
        types.as_slice(),
        values.as_slice(),
    );
    text_of(alloc, gives)
}
