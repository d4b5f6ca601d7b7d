//! Rules of the legaliser that widen operations of n bits to w.

ghost use Rattle.std.specs.Prelude.{◌≡◌, ◌≤◌, IfOk};
ghost use Rattle.gi_rule_values.specs.Widening.{extension_for, widen_add, widen_cast, widen_constant, widen_icmp, widen_lshr, widen_sdiv, widen_two};

use crate::building::s;
use crate::rewrite::Rewrite;
use gi_llt::{Memory, sext};
use gi_mir::opcode::Opcode;
use gi_mir::operand::{Flags, Operand, Pred};
use std::alloc::Global;

/// `OP 0, 1`: the operands are extended, and the operation is made at w bits and cut back.
pub fn widen_two(
    alloc: Global,
    root: Opcode,
    first: Opcode,
    second: Opcode,
    flags: Flags,
    n: u16,
    w: u16,
) -> Result<Rewrite, Memory>
    ensures { IfOk result (λ rewrite. rewrite ≡ widen_two root first second flags n w) }
{
    Rewrite::of_two(alloc, root, flags, s(n), s(n), s(n))?
        .on_one(first, 0, s(w))?
        .on_one(second, 1, s(w))?
        .on_two(root, 2, 3, s(w))?
        .on_one(Opcode::GenericTruncate, 4, s(n))?
        .gives(&[5])
}

/// `G_ADD 0, 1`
pub fn widen_add(alloc: Global, flags: Flags, n: u16, w: u16) -> Result<Rewrite, Memory>
    ensures { IfOk result (λ rewrite. rewrite ≡ widen_add flags n w) }
{
    let any = Opcode::GenericAnyExtend;
    widen_two(alloc, Opcode::GenericAdd, any, any, flags, n, w)
}

/// `G_LSHR 0, 1`
pub fn widen_lshr(alloc: Global, flags: Flags, n: u16, w: u16) -> Result<Rewrite, Memory>
    ensures { IfOk result (λ rewrite. rewrite ≡ widen_lshr flags n w) }
{
    let zero = Opcode::GenericZeroExtend;
    widen_two(
        alloc,
        Opcode::GenericLogicalShiftRight,
        zero,
        zero,
        flags,
        n,
        w,
    )
}

/// `G_SDIV 0, 1`
pub fn widen_sdiv(alloc: Global, flags: Flags, n: u16, w: u16) -> Result<Rewrite, Memory>
    ensures { IfOk result (λ rewrite. rewrite ≡ widen_sdiv flags n w) }
{
    let sign = Opcode::GenericSignExtend;
    widen_two(alloc, Opcode::GenericSignedDivide, sign, sign, flags, n, w)
}

/// `G_CONSTANT v`: extended with its sign, and cut back.
pub fn widen_constant(
    alloc: Global,
    flags: Flags,
    n: u16,
    w: u16,
    value: u128,
) -> Result<Rewrite, Memory>
    requires some { 1 ≤ n }
    requires upward { n ≤ w }
    requires at_most { w ≤ 128 }
    ensures { IfOk result (λ rewrite. rewrite ≡ widen_constant flags n w value) }
{
    let constant = Operand::Constant(n, value);
    Rewrite::of_none(alloc, Opcode::GenericConstant, flags, constant, s(n))?
        .number(w, sext(value, n, w))?
        .on_one(Opcode::GenericTruncate, 0, s(n))?
        .gives(&[1])
}

/// The extension of a comparison's operands: with their signs where it looks at them.
fn extension_for(pred: Pred) -> Opcode
    ensures { result ≡ extension_for pred }
{
    match pred {
        Pred::Sgt | Pred::Sge | Pred::Slt | Pred::Sle => Opcode::GenericSignExtend,
        _ => Opcode::GenericZeroExtend,
    }
}

/// `G_ICMP pred, 0, 1` to k bits
pub fn widen_icmp(
    alloc: Global,
    flags: Flags,
    pred: Pred,
    n: u16,
    w: u16,
    k: u16,
) -> Result<Rewrite, Memory>
    ensures { IfOk result (λ rewrite. rewrite ≡ widen_icmp flags pred n w k) }
{
    let extension = extension_for(pred);
    Rewrite::of_compare(alloc, flags, pred, s(n), s(k))?
        .on_one(extension, 0, s(w))?
        .on_one(extension, 1, s(w))?
        .compare(pred, 2, 3, s(k))?
        .gives(&[4])
}

/// An extension from m bits to k, made to w bits and cut.
pub fn widen_cast(
    alloc: Global,
    cast: Opcode,
    flags: Flags,
    m: u16,
    k: u16,
    w: u16,
) -> Result<Rewrite, Memory>
    ensures { IfOk result (λ rewrite. rewrite ≡ widen_cast cast flags m k w) }
{
    Rewrite::of_one(alloc, cast, flags, s(m), s(k))?
        .on_one(cast, 0, s(w))?
        .on_one(Opcode::GenericTruncate, 1, s(k))?
        .gives(&[2])
}
