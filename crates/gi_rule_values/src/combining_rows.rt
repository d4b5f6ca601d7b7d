//! Rules of the combiners, at types of n bits.

ghost use Rattle.std.specs.Prelude.{◌≡◌, ◌<◌, ◌≤◌, ◌^◌, IfOk};
ghost use Rattle.gi_rule_values.specs.Combining.{by_another, mul_to_shl, right_identity, same_to_zero, sub_to_add, udiv_to_lshr, urem_to_mask};

use crate::building::s;
use crate::rewrite::{Operation, Rewrite, Slot};
use crate::words::{negated, ones, power};
use gi_llt::Memory;
use gi_mir::opcode::Opcode;
use gi_mir::operand::Flags;
use std::alloc::Global;

/// `OP 0, 1` by a constant c: another operation, by a constant of its own.
fn by_another(
    alloc: Global,
    flags: Flags,
    more: Flags,
    root: Opcode,
    n: u16,
    c: u128,
    another: u128,
    made: Opcode,
) -> Result<Rewrite, Memory>
    ensures { IfOk result (λ rewrite. rewrite ≡ by_another flags more root n c another made) }
{
    Rewrite::of_two(alloc, root, flags, s(n), s(n), s(n))?
        .holds_constant(1, more, n, c)?
        .number(n, another)?
        .on_two(made, 0, 2, s(n))?
        .gives(&[3])
}

/// `G_MUL 0, 2^k`: `G_SHL 0, k`
pub fn mul_to_shl(
    alloc: Global,
    flags: Flags,
    more: Flags,
    n: u16,
    k: u16,
) -> Result<Rewrite, Memory>
    requires { k < 128 }
    ensures { IfOk result (λ rewrite. rewrite ≡ mul_to_shl flags more n k) }
{
    let (mul, shl) = (Opcode::GenericMultiply, Opcode::GenericShiftLeft);
    by_another(alloc, flags, more, mul, n, power(k), u128::from(k), shl)
}

/// `G_UDIV 0, 2^k`: `G_LSHR 0, k`
pub fn udiv_to_lshr(
    alloc: Global,
    flags: Flags,
    more: Flags,
    n: u16,
    k: u16,
) -> Result<Rewrite, Memory>
    requires { k < 128 }
    ensures { IfOk result (λ rewrite. rewrite ≡ udiv_to_lshr flags more n k) }
{
    let (udiv, lshr) = (
        Opcode::GenericUnsignedDivide,
        Opcode::GenericLogicalShiftRight,
    );
    by_another(alloc, flags, more, udiv, n, power(k), u128::from(k), lshr)
}

/// `G_SUB 0, c`: `G_ADD 0, -c`
pub fn sub_to_add(
    alloc: Global,
    flags: Flags,
    more: Flags,
    n: u16,
    c: u128,
) -> Result<Rewrite, Memory>
    requires few { n ≤ 128 }
    requires within { c < 2 ^ n }
    ensures { IfOk result (λ rewrite. rewrite ≡ sub_to_add flags more n c) }
{
    let (sub, add) = (Opcode::GenericSubtract, Opcode::GenericAdd);
    by_another(alloc, flags, more, sub, n, c, negated(n, c), add)
}

/// `G_UREM 0, 2^k`: `G_AND 0, 2^k - 1`
pub fn urem_to_mask(
    alloc: Global,
    flags: Flags,
    more: Flags,
    n: u16,
    k: u16,
) -> Result<Rewrite, Memory>
    requires { k < 128 }
    ensures { IfOk result (λ rewrite. rewrite ≡ urem_to_mask flags more n k) }
{
    let (urem, and) = (Opcode::GenericUnsignedRemainder, Opcode::GenericAnd);
    by_another(alloc, flags, more, urem, n, power(k), ones(k), and)
}

/// `OP 0, c`, where c leaves the value as it is: the value.
pub fn right_identity(
    alloc: Global,
    root: Opcode,
    flags: Flags,
    more: Flags,
    n: u16,
    c: u128,
) -> Result<Rewrite, Memory>
    ensures { IfOk result (λ rewrite. rewrite ≡ right_identity root flags more n c) }
{
    Rewrite::of_two(alloc, root, flags, s(n), s(n), s(n))?
        .holds_constant(1, more, n, c)?
        .on_one(Opcode::Copy, 0, s(n))?
        .gives(&[2])
}

/// `OP 0, 0`, a difference of a value and itself: 0
pub fn same_to_zero(alloc: Global, root: Opcode, flags: Flags, n: u16) -> Result<Rewrite, Memory>
    ensures { IfOk result (λ rewrite. rewrite ≡ same_to_zero root flags n) }
{
    let difference = Operation::new(alloc, root, flags, &[Slot::At(0), Slot::At(0)], &[s(n)])?;
    Rewrite::of(&[s(n)], difference)?.number(n, 0)?.gives(&[1])
}
