//! Rules of the legaliser for casts and parts.

ghost use Rattle.std.specs.Prelude.{◌≡◌, ◌≤◌, [], IfOk};
ghost use Rattle.gi_rule_values.specs.Artifacts.{anyext_of_trunc, cast_of_trunc, freeze_to_copy, sext_of_trunc, sext_of_trunc_same, trunc_of_trunc, zext_of_trunc, zext_of_trunc_same};

use crate::building::s;
use crate::rewrite::{Operation, Rewrite, Slot};
use crate::words::ones;
use gi_llt::{Llt, Memory};
use gi_mir::opcode::Opcode;
use gi_mir::operand::Flags;
use std::alloc::Global;

/// `G_FREEZE 0`: the value.
pub fn freeze_to_copy(alloc: Global, flags: Flags, ty: Llt) -> Result<Rewrite, Memory>
    ensures { IfOk result (λ rewrite. rewrite ≡ freeze_to_copy flags ty) }
{
    Rewrite::of_one(alloc, Opcode::GenericFreeze, flags, ty, ty)?
        .on_one(Opcode::Copy, 0, ty)?
        .gives(&[1])
}

/// A cast of `G_TRUNC 1`, in whose place nothing is made: of the low m bits of a value of w bits, to k bits.
fn cast_of_trunc(
    alloc: Global,
    cast: Opcode,
    flags: Flags,
    more: Flags,
    m: u16,
    w: u16,
    k: u16,
) -> Result<Rewrite, Memory>
    ensures { IfOk result (λ rewrite. rewrite ≡ record (cast_of_trunc cast flags more m w k [] 0) { results = [] }) }
{
    let root = Operation::new(alloc, cast, flags, &[Slot::At(0)], &[s(k)])?;
    Rewrite::of(&[s(m), s(w)], root)?.holds(0, Opcode::GenericTruncate, more, &[Slot::At(1)], s(m))
}

/// `G_TRUNC` of `G_TRUNC 1`
pub fn trunc_of_trunc(
    alloc: Global,
    flags: Flags,
    more: Flags,
    m: u16,
    w: u16,
    k: u16,
) -> Result<Rewrite, Memory>
    ensures { IfOk result (λ rewrite. rewrite ≡ trunc_of_trunc flags more m w k) }
{
    let trunc = Opcode::GenericTruncate;
    cast_of_trunc(alloc, trunc, flags, more, m, w, k)?
        .on_one(trunc, 1, s(k))?
        .gives(&[2])
}

/// `G_ANYEXT` of `G_TRUNC 1`: the value, by the cast that brings it to k bits.
pub fn anyext_of_trunc(
    alloc: Global,
    cast: Opcode,
    flags: Flags,
    more: Flags,
    m: u16,
    w: u16,
    k: u16,
) -> Result<Rewrite, Memory>
    ensures { IfOk result (λ rewrite. rewrite ≡ anyext_of_trunc cast flags more m w k) }
{
    cast_of_trunc(alloc, Opcode::GenericAnyExtend, flags, more, m, w, k)?
        .on_one(cast, 1, s(k))?
        .gives(&[2])
}

/// `G_ZEXT` of `G_TRUNC 1`, where that has k bits: its low m bits.
pub fn zext_of_trunc_same(
    alloc: Global,
    flags: Flags,
    more: Flags,
    m: u16,
    k: u16,
) -> Result<Rewrite, Memory>
    requires { m ≤ 128 }
    ensures { IfOk result (λ rewrite. rewrite ≡ zext_of_trunc_same flags more m k) }
{
    cast_of_trunc(alloc, Opcode::GenericZeroExtend, flags, more, m, k, k)?
        .number(k, ones(m))?
        .on_two(Opcode::GenericAnd, 1, 2, s(k))?
        .gives(&[3])
}

/// `G_ZEXT` of `G_TRUNC 1`: its low m bits, by the cast that brings it to k bits.
pub fn zext_of_trunc(
    alloc: Global,
    cast: Opcode,
    flags: Flags,
    more: Flags,
    m: u16,
    w: u16,
    k: u16,
) -> Result<Rewrite, Memory>
    requires { m ≤ 128 }
    ensures { IfOk result (λ rewrite. rewrite ≡ zext_of_trunc cast flags more m w k) }
{
    cast_of_trunc(alloc, Opcode::GenericZeroExtend, flags, more, m, w, k)?
        .on_one(cast, 1, s(k))?
        .number(k, ones(m))?
        .on_two(Opcode::GenericAnd, 2, 3, s(k))?
        .gives(&[4])
}

/// `G_SEXT` of `G_TRUNC 1`, where that has k bits: its low m bits with their sign.
pub fn sext_of_trunc_same(
    alloc: Global,
    flags: Flags,
    more: Flags,
    m: u16,
    k: u16,
) -> Result<Rewrite, Memory>
    ensures { IfOk result (λ rewrite. rewrite ≡ sext_of_trunc_same flags more m k) }
{
    cast_of_trunc(alloc, Opcode::GenericSignExtend, flags, more, m, k, k)?
        .in_register(1, m, s(k))?
        .gives(&[2])
}

/// `G_SEXT` of `G_TRUNC 1`: its low m bits with their sign, by the cast that brings it to k bits.
pub fn sext_of_trunc(
    alloc: Global,
    cast: Opcode,
    flags: Flags,
    more: Flags,
    m: u16,
    w: u16,
    k: u16,
) -> Result<Rewrite, Memory>
    ensures { IfOk result (λ rewrite. rewrite ≡ sext_of_trunc cast flags more m w k) }
{
    cast_of_trunc(alloc, Opcode::GenericSignExtend, flags, more, m, w, k)?
        .on_one(cast, 1, s(k))?
        .in_register(2, m, s(k))?
        .gives(&[3])
}
