//! Rules of the legaliser that make an operation of others.

ghost use Rattle.std.specs.Prelude.{◌≡◌, ◌≤◌, ◌<◌, ◌*◌, ◌^◌, ◌++◌, IfOk, OnOk};
ghost use Rattle.gi_rule_values.specs.Lowering.{groups_swapped, lower_abs, lower_bswap_32, lower_bswap_64, lower_ctpop, lower_ctpop_32, lower_ctpop_64, lower_sext_inreg, lower_uadde, narrow_logic};

use crate::building::{Line, push_lines, s};
use crate::rewrite::{Operation, Rewrite, Slot};
use gi_llt::Memory;
use gi_mir::opcode::Opcode;
use gi_mir::operand::{Flags, Operand, Pred};
use std::alloc::Global;

/// `G_UADDE 0, 1, 2`: two sums, of which at most one carries.
pub fn lower_uadde(alloc: Global, flags: Flags, n: u16) -> Result<Rewrite, Memory>
    ensures { IfOk result (λ rewrite. rewrite ≡ lower_uadde flags n) }
{
    let root = Operation::new(
        alloc,
        Opcode::GenericUnsignedAddCarry,
        flags,
        &[Slot::At(0), Slot::At(1), Slot::At(2)],
        &[s(n), s(1)],
    )?;
    Rewrite::of(&[s(n), s(n), s(1)], root)?
        .on_two(Opcode::GenericAdd, 0, 1, s(n))?
        .on_one(Opcode::GenericZeroExtend, 2, s(n))?
        .on_two(Opcode::GenericAdd, 3, 4, s(n))?
        .compare(Pred::Ult, 3, 0, s(1))?
        .compare(Pred::Ult, 5, 3, s(1))?
        .on_two(Opcode::GenericOr, 6, 7, s(1))?
        .gives(&[5, 8])
}

/// `G_ABS 0`: where it is below 0, all bits are turned and one is added.
pub fn lower_abs(alloc: Global, flags: Flags, n: u16) -> Result<Rewrite, Memory>
    ensures { IfOk result (λ rewrite. rewrite ≡ lower_abs flags n) }
{
    let last = u128::from(n.saturating_sub(1));
    Rewrite::of_one(alloc, Opcode::GenericAbsolute, flags, s(n), s(n))?
        .number(n, last)?
        .on_two(Opcode::GenericArithmeticShiftRight, 0, 1, s(n))?
        .on_two(Opcode::GenericXor, 0, 2, s(n))?
        .on_two(Opcode::GenericSubtract, 3, 2, s(n))?
        .gives(&[4])
}

/// Logic of twice x bits, half by half.
pub fn narrow_logic(alloc: Global, logic: Opcode, flags: Flags, x: u16) -> Result<Rewrite, Memory>
    requires { 2 * x < 2 ^ 16 }
    ensures { IfOk result (λ rewrite. rewrite ≡ narrow_logic logic flags x) }
{
    let unmerge = Opcode::GenericUnmergeValues;
    let whole = s(2 * x);
    Rewrite::of_two(alloc, logic, flags, whole, whole, whole)?
        .makes_all(unmerge, &[Slot::At(0)], &[s(x), s(x)])?
        .makes_all(unmerge, &[Slot::At(1)], &[s(x), s(x)])?
        .on_two(logic, 2, 4, s(x))?
        .on_two(logic, 3, 5, s(x))?
        .on_two(Opcode::GenericMergeValues, 6, 7, whole)?
        .gives(&[8])
}

/// `G_SEXT_INREG 0, k` of x bits: the low k bits are shifted to the left end, and back with their sign.
pub fn lower_sext_inreg(alloc: Global, flags: Flags, x: u16, k: u16) -> Result<Rewrite, Memory>
    ensures { IfOk result (λ rewrite. rewrite ≡ lower_sext_inreg flags x k) }
{
    let above = u128::from(x.saturating_sub(k));
    let root = Operation::new(
        alloc,
        Opcode::GenericSignExtendInRegister,
        flags,
        &[Slot::At(0), Slot::Stands(Operand::Int(i128::from(k)))],
        &[s(x)],
    )?;
    Rewrite::of(&[s(x)], root)?
        .number(x, above)?
        .on_two(Opcode::GenericShiftLeft, 0, 1, s(x))?
        .number(x, above)?
        .on_two(Opcode::GenericArithmeticShiftRight, 2, 3, s(x))?
        .gives(&[4])
}

/// The ones of each two bits, then of each four, each byte and all bytes, by masks whose bytes are 55, 33, 0F and 01.
fn lower_ctpop(
    alloc: Global,
    flags: Flags,
    x: u16,
    pairs: u128,
    nibbles: u128,
    bytes: u128,
    units: u128,
) -> Result<Rewrite, Memory>
    ensures { IfOk result (λ rewrite. rewrite ≡ lower_ctpop flags x pairs nibbles bytes units) }
{
    let (and, lshr) = (Opcode::GenericAnd, Opcode::GenericLogicalShiftRight);
    let (add, sub) = (Opcode::GenericAdd, Opcode::GenericSubtract);
    Rewrite::of_one(alloc, Opcode::GenericPopulationCount, flags, s(x), s(x))?
        .makes_lines(
            x,
            &[
                Line::Number(1),
                Line::Two(lshr, 0, 1),
                Line::Number(pairs),
                Line::Two(and, 2, 3),
                Line::Two(sub, 0, 4),
                Line::Number(nibbles),
                Line::Two(and, 5, 6),
                Line::Number(2),
                Line::Two(lshr, 5, 8),
                Line::Number(nibbles),
                Line::Two(and, 9, 10),
                Line::Two(add, 7, 11),
                Line::Number(4),
                Line::Two(lshr, 12, 13),
                Line::Two(add, 12, 14),
                Line::Number(bytes),
                Line::Two(and, 15, 16),
                Line::Number(units),
                Line::Two(Opcode::GenericMultiply, 17, 18),
                Line::Number(u128::from(x.saturating_sub(8))),
                Line::Two(lshr, 19, 20),
            ],
        )?
        .gives(&[21])
}

/// `G_CTPOP 0` of 32 bits
pub fn lower_ctpop_32(alloc: Global, flags: Flags) -> Result<Rewrite, Memory>
    ensures { IfOk result (λ rewrite. rewrite ≡ lower_ctpop_32 flags) }
{
    lower_ctpop(
        alloc,
        flags,
        32,
        0x5555_5555,
        0x3333_3333,
        0x0F0F_0F0F,
        0x0101_0101,
    )
}

/// `G_CTPOP 0` of 64 bits
pub fn lower_ctpop_64(alloc: Global, flags: Flags) -> Result<Rewrite, Memory>
    ensures { IfOk result (λ rewrite. rewrite ≡ lower_ctpop_64 flags) }
{
    lower_ctpop(
        alloc,
        flags,
        64,
        0x5555_5555_5555_5555,
        0x3333_3333_3333_3333,
        0x0F0F_0F0F_0F0F_0F0F,
        0x0101_0101_0101_0101,
    )
}

/// Groups of so many bits change places with their neighbours: of what stands at a, where next is the first free place.
fn push_swap(
    x: u16,
    a: u8,
    next: u8,
    size: u128,
    mask: u128,
    made: &mut Vec<Operation>,
) -> Result<(), Memory>
    requires { next < 248 }
    ensures { OnOk result (made.new.items ≡ made.old.items ++ groups_swapped x a next size mask) }
{
    let and = Opcode::GenericAnd;
    push_lines(
        x,
        &[
            Line::Number(size),
            Line::Two(Opcode::GenericLogicalShiftRight, a, next),
            Line::Number(mask),
            Line::Two(and, next + 1, next + 2),
            Line::Number(mask),
            Line::Two(and, a, next + 4),
            Line::Number(size),
            Line::Two(Opcode::GenericShiftLeft, next + 5, next + 6),
            Line::Two(Opcode::GenericOr, next + 3, next + 7),
        ],
        made,
    )
}

/// `G_BSWAP 0` of 32 bits
pub fn lower_bswap_32(alloc: Global, flags: Flags) -> Result<Rewrite, Memory>
    ensures { IfOk result (λ rewrite. rewrite ≡ lower_bswap_32 flags) }
{
    let bswap = Opcode::GenericByteSwap;
    let mut rewrite = Rewrite::of_one(alloc, bswap, flags, s(32), s(32))?;
    push_swap(32, 0, 1, 8, 0x00FF_00FF, &mut rewrite.made)?;
    push_swap(32, 9, 10, 16, 0xFFFF, &mut rewrite.made)?;
    rewrite.gives(&[18])
}

/// `G_BSWAP 0` of 64 bits
pub fn lower_bswap_64(alloc: Global, flags: Flags) -> Result<Rewrite, Memory>
    ensures { IfOk result (λ rewrite. rewrite ≡ lower_bswap_64 flags) }
{
    let bswap = Opcode::GenericByteSwap;
    let mut rewrite = Rewrite::of_one(alloc, bswap, flags, s(64), s(64))?;
    push_swap(64, 0, 1, 8, 0x00FF_00FF_00FF_00FF, &mut rewrite.made)?;
    push_swap(64, 9, 10, 16, 0x0000_FFFF_0000_FFFF, &mut rewrite.made)?;
    push_swap(64, 18, 19, 32, 0xFFFF_FFFF, &mut rewrite.made)?;
    rewrite.gives(&[27])
}
