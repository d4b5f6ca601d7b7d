//! Rows of the selector, where x is the width of a machine register in bits.

ghost use Rattle.std.specs.Prelude.{◌≡◌, ◌<◌, ◌≤◌, ◌+◌, ◌^◌, ◌⊎◌, ◌++◌, IfOk, OnOk, length, take};
ghost use Rattle.gi_rule_values.specs.Selecting.{chain, chain_place, materialize_constant, select_above, select_below, select_icmp_eq, select_icmp_ne, select_icmp_ule, select_not_above, select_not_below, select_number, select_select, select_two, select_zext, step_on};

use crate::building::{plain, s};
use crate::rewrite::{Operation, Rewrite, Slot};
use crate::words::unsigned;
use gi_llt::{Llt, Memory, Target};
use gi_mir::opcode::Opcode;
use gi_mir::operand::{Flags, Operand, Pred};
use gi_riscv::{Sequence, Step, materialise};
use std::alloc::Global;

/// `OP 0, 1`, which one instruction gives.
pub fn select_two(
    alloc: Global,
    root: Opcode,
    instruction: Opcode,
    flags: Flags,
    n: u16,
) -> Result<Rewrite, Memory>
    ensures { IfOk result (λ rewrite. rewrite ≡ select_two root instruction flags n) }
{
    Rewrite::of_two(alloc, root, flags, s(n), s(n), s(n))?
        .on_two(instruction, 0, 1, s(n))?
        .gives(&[2])
}

/// `OP 0, 1` by a constant that is a number of an immediate.
pub fn select_number(
    alloc: Global,
    root: Opcode,
    instruction: Opcode,
    flags: Flags,
    more: Flags,
    n: u16,
    number: i16,
) -> Result<Rewrite, Memory>
    requires some { 1 ≤ n }
    requires at_most { n ≤ 128 }
    ensures { IfOk result (λ rewrite. rewrite ≡ select_number root instruction flags more n number) }
{
    Rewrite::of_two(alloc, root, flags, s(n), s(n), s(n))?
        .holds_constant(1, more, n, unsigned(n, number))?
        .with_number(instruction, 0, i128::from(number), s(n))?
        .gives(&[2])
}

/// A comparison that one instruction gives.
pub fn select_below(
    alloc: Global,
    pred: Pred,
    instruction: Opcode,
    flags: Flags,
    x: u16,
) -> Result<Rewrite, Memory>
    ensures { IfOk result (λ rewrite. rewrite ≡ select_below pred instruction flags x) }
{
    Rewrite::of_compare(alloc, flags, pred, s(x), s(x))?
        .on_two(instruction, 0, 1, s(x))?
        .gives(&[2])
}

/// A comparison that one instruction gives of the operands in the other order.
pub fn select_above(
    alloc: Global,
    pred: Pred,
    instruction: Opcode,
    flags: Flags,
    x: u16,
) -> Result<Rewrite, Memory>
    ensures { IfOk result (λ rewrite. rewrite ≡ select_above pred instruction flags x) }
{
    Rewrite::of_compare(alloc, flags, pred, s(x), s(x))?
        .on_two(instruction, 1, 0, s(x))?
        .gives(&[2])
}

/// A comparison that holds where one instruction gives 0: at least.
pub fn select_not_below(
    alloc: Global,
    pred: Pred,
    instruction: Opcode,
    flags: Flags,
    x: u16,
) -> Result<Rewrite, Memory>
    ensures { IfOk result (λ rewrite. rewrite ≡ select_not_below pred instruction flags x) }
{
    Rewrite::of_compare(alloc, flags, pred, s(x), s(x))?
        .on_two(instruction, 0, 1, s(x))?
        .with_number(Opcode::XorImmediate, 2, 1, s(x))?
        .gives(&[3])
}

/// The same of the operands in the other order: at most.
pub fn select_not_above(
    alloc: Global,
    pred: Pred,
    instruction: Opcode,
    flags: Flags,
    x: u16,
) -> Result<Rewrite, Memory>
    ensures { IfOk result (λ rewrite. rewrite ≡ select_not_above pred instruction flags x) }
{
    Rewrite::of_compare(alloc, flags, pred, s(x), s(x))?
        .on_two(instruction, 1, 0, s(x))?
        .with_number(Opcode::XorImmediate, 2, 1, s(x))?
        .gives(&[3])
}

/// `G_ICMP ule 0, 1`: not above.
pub fn select_icmp_ule(alloc: Global, flags: Flags, x: u16) -> Result<Rewrite, Memory>
    ensures { IfOk result (λ rewrite. rewrite ≡ select_icmp_ule flags x) }
{
    select_not_above(alloc, Pred::Ule, Opcode::SetLessUnsigned, flags, x)
}

/// `G_ICMP eq 0, 1`: no bit differs.
pub fn select_icmp_eq(alloc: Global, flags: Flags, x: u16) -> Result<Rewrite, Memory>
    ensures { IfOk result (λ rewrite. rewrite ≡ select_icmp_eq flags x) }
{
    Rewrite::of_compare(alloc, flags, Pred::Eq, s(x), s(x))?
        .on_two(Opcode::Xor, 0, 1, s(x))?
        .with_number(Opcode::SetLessImmediateUnsigned, 2, 1, s(x))?
        .gives(&[3])
}

/// `G_ICMP ne 0, 1`: a bit differs.
pub fn select_icmp_ne(alloc: Global, flags: Flags, x: u16) -> Result<Rewrite, Memory>
    ensures { IfOk result (λ rewrite. rewrite ≡ select_icmp_ne flags x) }
{
    Rewrite::of_compare(alloc, flags, Pred::Ne, s(x), s(x))?
        .on_two(Opcode::Xor, 0, 1, s(x))?
        .with_zero(Opcode::SetLessUnsigned, 2, s(x))?
        .gives(&[3])
}

/// `G_SELECT 0, 1, 2`: a mask of all bits or none, by which the values differ from the second.
pub fn select_select(alloc: Global, flags: Flags, x: u16, ty: Llt) -> Result<Rewrite, Memory>
    ensures { IfOk result (λ rewrite. rewrite ≡ select_select flags x ty) }
{
    let root = Operation::new(
        alloc,
        Opcode::GenericSelect,
        flags,
        &[Slot::At(0), Slot::At(1), Slot::At(2)],
        &[ty],
    )?;
    Rewrite::of(&[s(x), ty, ty], root)?
        .with_zero(Opcode::SetLessUnsigned, 0, ty)?
        .with_zero(Opcode::Subtract, 3, ty)?
        .on_two(Opcode::Xor, 1, 2, ty)?
        .on_two(Opcode::And, 5, 4, ty)?
        .on_two(Opcode::Xor, 2, 6, ty)?
        .gives(&[7])
}

/// `G_ZEXT 0` of 32 bits: the bits above them are shifted out.
pub fn select_zext(alloc: Global, flags: Flags) -> Result<Rewrite, Memory>
    ensures { IfOk result (λ rewrite. rewrite ≡ select_zext flags) }
{
    Rewrite::of_one(alloc, Opcode::GenericZeroExtend, flags, s(32), s(64))?
        .with_number(Opcode::ShiftLeftLogicalImmediate, 0, 32, s(64))?
        .with_number(Opcode::ShiftRightLogicalImmediate, 1, 32, s(64))?
        .gives(&[2])
}

/// The instruction of a step, on the word that a slot gives.
fn step_on(alloc: Global, slot: Slot, ty: Llt, step: Step) -> Result<Operation, Memory>
    ensures { IfOk result (λ operation. operation ≡ step_on slot ty step) }
{
    match step {
        Step::Lui(number) => plain(
            alloc,
            Opcode::LoadUpperImmediate,
            &[Slot::Stands(Operand::Int(i128::from(number)))],
            ty,
        ),
        Step::Addi(number) => plain(
            alloc,
            Opcode::AddImmediate,
            &[slot, Slot::Stands(Operand::Int(i128::from(number)))],
            ty,
        ),
        Step::Addiw(number) => plain(
            alloc,
            Opcode::AddImmediateWord,
            &[slot, Slot::Stands(Operand::Int(i128::from(number)))],
            ty,
        ),
        Step::Slli(amount) => plain(
            alloc,
            Opcode::ShiftLeftLogicalImmediate,
            &[slot, Slot::Stands(Operand::Int(i128::from(amount)))],
            ty,
        ),
    }
}

/// Adds each step on the one before it, where the first gives its word at a place.
fn push_chain(
    slot: Slot,
    place: u8,
    ty: Llt,
    steps: &[Step],
    made: &mut Vec<Operation>,
) -> Result<(), Memory>
    requires { place + length steps.now < 256 }
    ensures { OnOk result (made.new.items ≡ made.old.items ++ chain slot place ty steps.now) }
{
    match steps {
        [] => Ok(()),
        [step, rest @ ..] => {
            let operation = step_on(*made.allocator(), slot, ty, *step)?;
            made.push(operation).map_err(|_| Memory)?;
            push_chain(Slot::At(place), place + 1, ty, rest, made)
        }
    }
}

/// Where the last word of a chain is.
fn chain_place(at: u8, place: u8, steps: &[Step]) -> u8
    requires { place + length steps.now < 256 }
    ensures { result ≡ chain_place at place steps.now }
{
    match steps {
        [] => at,
        [_, rest @ ..] => chain_place(place, place + 1, rest),
    }
}

/// The steps of a sequence that count.
fn counted(sequence: &Sequence) -> &[Step]
    requires { sequence.now.count ≤ 8 }
    ensures { result.now ≡ take sequence.now.count sequence.now.steps }
{
    &sequence.steps[..usize::from(sequence.count)]
}

/// `G_CONSTANT value` of a word: the instructions that make it from zero.
pub fn materialize_constant(
    alloc: Global,
    target: Target,
    flags: Flags,
    ty: Llt,
    value: u128,
) -> Result<Rewrite, Memory>
    requires xlen { (target.xlen ≡ 32) ⊎ (target.xlen ≡ 64) }
    requires fits { value < 2 ^ target.xlen }
    ensures { IfOk result (λ rewrite. rewrite ≡ materialize_constant flags target.xlen ty value) }
{
    let sequence = materialise(target, value);
    let steps = counted(&sequence);
    let constant = Operand::Constant(target.xlen, value);
    let mut rewrite = Rewrite::of_none(alloc, Opcode::GenericConstant, flags, constant, ty)?;
    push_chain(
        Slot::Stands(Operand::Phys(0)),
        0,
        ty,
        steps,
        &mut rewrite.made,
    )?;
    rewrite.gives(&[chain_place(0, 0, steps)])
}
