//! Registers that are used where they aren't settled.

ghost use Rattle.std.specs.Prelude.{IfOk};
ghost use Rattle.gi_verify.specs.Sets.{AreReachedBlocks};
ghost use Rattle.gi_verify.specs.Settled.{IsOrderOf};

use crate::blocks::entry_of;
use crate::cover::look_in_rounds;
use crate::listed::Listed;
use crate::lowest::is_told_above;
use crate::settled::{Order, comes_sooner, comes_within};
use crate::spread::sources_of;
use gi_llt::Memory;
use gi_mir::block::{InstrId, Numbered};
use gi_mir::function::Function;
use gi_mir::operand::{Operand, Reg};
use gi_valid::Fault;
use std::alloc::Global;

/// Notes a register, where it wasn't.
fn note(keys: &mut Listed, r: u32) -> Result<(), Memory> {
    if !keys.has(r) {
        keys.add(r)?;
    }
    Ok(())
}

/// The same where it is defined.
fn note_defined(function: &Function, keys: &mut Listed, r: u32) -> Result<(), Memory> {
    if function.def_of(Reg(r)).is_some() {
        note(keys, r)?;
    }
    Ok(())
}

/// Notes the register of an entry of a phi, where it isn't settled.
fn note_entry(
    function: &Function,
    order: &Order,
    keys: &mut Listed,
    entry: Option<(u32, u32)>,
) -> Result<(), Memory>
    requires { IsOrderOf function.now order.now }
{
    match entry {
        Some((r, a)) => {
            if comes_within(function, order, r, a) {
                Ok(())
            } else {
                note_defined(function, keys, r)
            }
        }
        None => Ok(()),
    }
}

/// Notes the registers of the entries of a phi that aren't settled.
fn note_entries(
    function: &Function,
    order: &Order,
    keys: &mut Listed,
    operands: &[Operand],
) -> Result<(), Memory>
    requires { IsOrderOf function.now order.now }
{
    for k in 0..operands.len() {
        note_entry(function, order, keys, entry_of(&operands[k..]))?;
    }
    Ok(())
}

/// Notes the register that an operand uses, where it isn't settled.
fn note_use(
    function: &Function,
    order: &Order,
    keys: &mut Listed,
    b: u32,
    id: InstrId,
    operand: Operand,
) -> Result<(), Memory>
    requires { IsOrderOf function.now order.now }
{
    if let Operand::Use(r) = operand {
        if !(function.is_live(id) && comes_sooner(function, order, r.0, b, id)) {
            note_defined(function, keys, r.0)?;
        }
    }
    Ok(())
}

/// Notes the registers that an instruction uses and that aren't settled.
fn note_uses(
    function: &Function,
    order: &Order,
    keys: &mut Listed,
    b: u32,
    numbered: &Numbered,
) -> Result<(), Memory>
    requires { IsOrderOf function.now order.now }
{
    let operands = numbered.instr.operands.as_slice();
    if numbered.instr.op.is_phi() {
        return note_entries(function, order, keys, operands);
    }
    for operand in operands {
        note_use(function, order, keys, b, numbered.id, *operand)?;
    }
    Ok(())
}

/// Notes all registers that are used where they aren't settled, on no line above that of what was told.
fn note_all(
    function: &Function,
    order: &Order,
    told: Option<Fault>,
    keys: &mut Listed,
) -> Result<(), Memory>
    requires { IsOrderOf function.now order.now }
{
    for b in 0..function.block_count() {
        for numbered in function.instrs(b) {
            if !is_told_above(told, numbered.instr.line) {
                note_uses(function, order, keys, b, numbered)?;
            }
        }
    }
    Ok(())
}

/// Notes the registers that operands name.
fn note_others(keys: &mut Listed, operands: &[Operand]) -> Result<(), Memory> {
    for operand in operands {
        match *operand {
            Operand::Def(r, _) | Operand::Use(r) => note(keys, r.0)?,
            _ => {}
        }
    }
    Ok(())
}

/// Notes all registers of a function.
fn note_rest(function: &Function, keys: &mut Listed) -> Result<(), Memory> {
    for b in 0..function.block_count() {
        for numbered in function.instrs(b) {
            note_others(keys, numbered.instr.operands.as_slice())?;
        }
    }
    Ok(())
}

/// An order with what is found of registers that are used where they aren't settled, on no line above that of what was told.
pub(crate) fn with_cover(
    alloc: Global,
    function: &Function,
    order: Order,
    reached: &[bool],
    told: Option<Fault>,
) -> Result<Order, Memory>
    requires order { IsOrderOf function.now order }
    requires reached { AreReachedBlocks function.now reached.now }
    ensures { IfOk result (λ order. IsOrderOf function.now order) }
{
    let mut keys = Listed::new(alloc);
    note_all(function, &order, told, &mut keys)?;
    let count = keys.len();
    if count == 0 {
        return Ok(order);
    }
    note_rest(function, &mut keys)?;
    let sources = sources_of(alloc, function, &keys)?;
    let mut order = order;
    order.cover = look_in_rounds(alloc, function, reached, &sources, keys, count)?;
    Ok(order)
}
