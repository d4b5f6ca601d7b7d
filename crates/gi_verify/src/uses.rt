//! Uses of registers that aren't available.

ghost use Rattle.std.specs.Prelude.{◌≡◌, ◌<◌, ◌||◌, ◌&&◌, ◌∷◌, ℕ, not, [], true, false, Some, None, Option, IfOk, length, find, nat_lt, option_map, drop};
ghost use Rattle.gi_mir.specs.Data.{reg_of};
ghost use Rattle.std.specs.List.{list_all};
ghost use Rattle.gi_mir.specs.Edit.{block_at, is_use_of, uses};
ghost use Rattle.gi_mir.specs.Formed.{is_in_range};
ghost use Rattle.gi_mir.specs.declared.operand.Operand.TheVariants as Operand;
ghost use Rattle.gi_meaning.specs.Runs.{entry_of, is_phi};
ghost use Rattle.gi_valid.specs.Available as available;
ghost use Rattle.gi_valid.specs.Available.{Extent};
ghost use Rattle.gi_valid.specs.Faults as faults;
ghost use Rattle.gi_valid.specs.Valid.{IsGreatest};
ghost use Rattle.gi_valid.specs.declared.invalid.Invalid.TheVariants as Invalid;
ghost use Rattle.gi_verify.specs.Masks.{IsMaskOf};
ghost use Rattle.gi_verify.specs.Rounds.{IsCoveredEntry, is_before};
ghost use Rattle.gi_verify.specs.Sets.{AreReachedBlocks, IsAnswer, IsMissing, IsThere, marked};
ghost use Rattle.gi_verify.specs.Settled.{IsOrderOf, IsPlaced};
ghost use Rattle.gi_mir.specs.Instrs.{left};

use crate::available::is_available;
use crate::blocks::entry_of;
use crate::ends::is_phi;
use crate::mask::Mask;
use crate::physical::is_physical_there;
use crate::settled::{Order, comes_sooner, comes_within};
use gi_llt::Memory;
use gi_mir::block::{InstrId, Numbered};
use gi_mir::function::Function;
use gi_mir::instrs::Instrs;
use gi_mir::operand::{Operand, Reg};
use gi_valid::Invalid;
use std::alloc::Global;

/// The id of an instruction.
fn id_of(numbered: &Numbered) -> InstrId
    ensures { result.0 ≡ (numbered.now).0 }
{
    numbered.id
}

/// Whether a register is found to be available behind the front of a block, since its definition comes sooner.
fn is_sooner(
    function: &Function,
    order: &Order,
    r: u32,
    b: u32,
    front: Instrs<'_>,
    numbered: &Numbered,
) -> bool
    requires order { IsOrderOf function.now order.now }
    requires within { b < length function.now.blocks }
    requires placed { IsPlaced function.now b (left front) numbered.now }
    ensures { result ≡ true → IsAnswer function.now r b (left front.entry) true }
{
    let _ = front;
    let id = id_of(numbered);
    comes_sooner(function, order, r, b, id)
}

/// Whether a register is found to be available at the end of a block, since its definition comes sooner.
fn is_within(function: &Function, order: &Order, r: u32, b: u32) -> bool
    requires order { IsOrderOf function.now order.now }
    requires within { b < length function.now.blocks }
    ensures { result ≡ true → IsAnswer function.now r b (block_at function.now b).instrs true }
{
    comes_within(function, order, r, b)
}

/// Whether an instruction is marked, and a register was looked at in a round.
fn covers(order: &Order, r: u32, id: InstrId) -> bool
    ensures known { result ≡ true → is_before order.now.cover.keys order.now.cover.limit r ≡ true }
    ensures fine { result ≡ true → marked order.now.cover.fine id.0 ≡ true }
{
    order.cover.covers(r, id)
}

/// Whether a register that an instruction uses, and that isn't of a phi, is found to be available in a round.
fn is_covered(
    function: &Function,
    order: &Order,
    r: u32,
    b: u32,
    front: Instrs<'_>,
    numbered: &Numbered,
) -> bool
    requires order { IsOrderOf function.now order.now }
    requires placed { IsPlaced function.now b (left front) numbered.now }
    requires other { is_phi (numbered.now).1 ≡ false }
    requires used { uses r numbered.now ≡ true }
    ensures { result ≡ true → IsAnswer function.now r b (left front.entry) true }
{
    let _ = function;
    let _ = front;
    covers(order, r, id_of(numbered))
}

/// Whether what an operand uses is available.
fn is_there(
    alloc: Global,
    function: &Function,
    reached: &[bool],
    order: &Order,
    there: Mask,
    b: u32,
    front: Instrs<'_>,
    numbered: &Numbered,
    operand: Operand,
) -> Result<bool, Memory>
    requires reached { AreReachedBlocks function.now reached.now }
    requires order { IsOrderOf function.now order.now }
    requires within { b < length function.now.blocks }
    requires placed { IsPlaced function.now b (left front) numbered.now }
    requires there { IsMaskOf (available.is_physical_there function.now b (left front)) there }
    requires range { is_in_range operand ≡ true }
    requires other { is_phi (numbered.now).1 ≡ false }
    requires used { (q : ℕ) → is_use_of q operand ≡ true → uses q numbered.now ≡ true }
    ensures { IfOk result (λ t. IsThere function.now b (left front.entry) operand t) }
{
    match operand {
        Operand::Use(r) => {
            is_use_there(alloc, function, reached, order, b, front, numbered, r.0)
        }
        Operand::Phys(n) | Operand::ImplicitUse(n) => {
            Ok(is_physical_there(function, there, b, front, n))
        }
        _ => Ok(true),
    }
}

/// Whether a virtual register is.
fn is_use_there(
    alloc: Global,
    function: &Function,
    reached: &[bool],
    order: &Order,
    b: u32,
    front: Instrs<'_>,
    numbered: &Numbered,
    r: u32,
) -> Result<bool, Memory>
    requires reached { AreReachedBlocks function.now reached.now }
    requires order { IsOrderOf function.now order.now }
    requires within { b < length function.now.blocks }
    requires placed { IsPlaced function.now b (left front) numbered.now }
    requires other { is_phi (numbered.now).1 ≡ false }
    requires used { uses r numbered.now ≡ true }
    ensures { IfOk result (λ t. IsThere function.now b (left front.entry) (Operand.Use (reg_of r)) t) }
{
    if is_sooner(function, order, r, b, front, numbered)
        || is_covered(function, order, r, b, front, numbered)
    {
        return Ok(true);
    }
    let there = is_available(alloc, function, reached, r, b, front)?;
    Ok(there)
}

/// The fault of the first of these operands whose register isn't available.
fn missing_among(
    alloc: Global,
    function: &Function,
    reached: &[bool],
    order: &Order,
    there: Mask,
    b: u32,
    front: Instrs<'_>,
    numbered: &Numbered,
    operands: &[Operand],
) -> Result<Option<Invalid>, Memory>
    requires reached { AreReachedBlocks function.now reached.now }
    requires order { IsOrderOf function.now order.now }
    requires within { b < length function.now.blocks }
    requires placed { IsPlaced function.now b (left front) numbered.now }
    requires there { IsMaskOf (available.is_physical_there function.now b (left front)) there }
    requires range { list_all is_in_range operands.now ≡ true }
    requires other { is_phi (numbered.now).1 ≡ false }
    requires own { operands.now ≡ ((numbered.now).1).operands }
    ensures { IfOk result (λ found. IsMissing function.now b (left front.entry) operands.now found) }
{
    for k in 0..operands.len() {
        let operand = operands[k];
        if !is_there(
            alloc, function, reached, order, there, b, front, numbered, operand,
        )? {
            return Ok(Some(Invalid::NotAvailable(operand)));
        }
    }
    Ok(None)
}

/// The fault of the first operand whose register isn't available.
fn missing_use(
    alloc: Global,
    function: &Function,
    reached: &[bool],
    order: &Order,
    there: Mask,
    b: u32,
    front: Instrs<'_>,
    numbered: &Numbered,
) -> Result<Option<Invalid>, Memory>
    requires reached { AreReachedBlocks function.now reached.now }
    requires order { IsOrderOf function.now order.now }
    requires within { b < length function.now.blocks }
    requires placed { IsPlaced function.now b (left front) numbered.now }
    requires there { IsMaskOf (available.is_physical_there function.now b (left front)) there }
    requires other { is_phi (numbered.now).1 ≡ false }
    ensures { IfOk result (λ found. IsMissing function.now b (left front.entry) ((numbered.now).1).operands found) }
{
    let found = missing_among(
        alloc,
        function,
        reached,
        order,
        there,
        b,
        front,
        numbered,
        numbered.instr.operands.as_slice(),
    )?;
    Ok(found)
}

/// Whether the register of an entry of a phi is found to be available in a round.
fn is_covered_entry(function: &Function, order: &Order, phi: InstrId, r: u32, b: u32) -> bool
    requires within { b < length function.now.blocks }
    requires covered { IsCoveredEntry function.now order.now.cover phi.0 (Some (r, b)) }
    ensures { result ≡ true → IsAnswer function.now r b (block_at function.now b).instrs true }
{
    let _ = function;
    let _ = b;
    covers(order, r, phi)
}

/// Whether a register is available at the end of a block.
fn is_at_end(
    alloc: Global,
    function: &Function,
    reached: &[bool],
    order: &Order,
    phi: InstrId,
    r: u32,
    b: u32,
) -> Result<bool, Memory>
    requires reached { AreReachedBlocks function.now reached.now }
    requires order { IsOrderOf function.now order.now }
    requires within { b < length function.now.blocks }
    requires covered { IsCoveredEntry function.now order.now.cover phi.0 (Some (r, b)) }
    ensures { (extents : ℕ → Extent) → ((q : ℕ) → IsGreatest function.now q (extents q)) → IfOk result (λ t. t ≡ available.at_end function.now r (extents r) b) }
{
    if is_within(function, order, r, b) || is_covered_entry(function, order, phi, r, b) {
        return Ok(true);
    }
    let there = is_available(alloc, function, reached, r, b, function.instrs(b))?;
    Ok(there)
}

/// Whether an entry of a phi is there, where there is its block.
fn is_entry_there(
    alloc: Global,
    function: &Function,
    reached: &[bool],
    order: &Order,
    phi: InstrId,
    r: u32,
    b: u32,
) -> Result<bool, Memory>
    requires reached { AreReachedBlocks function.now reached.now }
    requires order { IsOrderOf function.now order.now }
    requires covered { IsCoveredEntry function.now order.now.cover phi.0 (Some (r, b)) }
    ensures { (extents : ℕ → Extent) → ((q : ℕ) → IsGreatest function.now q (extents q)) → IfOk result (λ t. t ≡ (not (nat_lt b (length function.now.blocks)) || available.at_end function.now r (extents r) b)) }
{
    if b < function.block_count() {
        let there = is_at_end(alloc, function, reached, order, phi, r, b)?;
        Ok(there)
    } else {
        Ok(true)
    }
}

/// The fault of an entry of a phi, where there is an entry and it isn't there.
fn missing_entry(
    alloc: Global,
    function: &Function,
    reached: &[bool],
    order: &Order,
    phi: InstrId,
    entry: Option<(u32, u32)>,
) -> Result<Option<Invalid>, Memory>
    requires reached { AreReachedBlocks function.now reached.now }
    requires order { IsOrderOf function.now order.now }
    requires covered { IsCoveredEntry function.now order.now.cover phi.0 entry }
    ensures { (extents : ℕ → Extent) → ((q : ℕ) → IsGreatest function.now q (extents q)) → IfOk result (λ found. found ≡ faults.missing_entry function.now extents entry) }
{
    match entry {
        Some((r, b)) => {
            if is_entry_there(alloc, function, reached, order, phi, r, b)? {
                Ok(None)
            } else {
                Ok(Some(Invalid::NotAvailable(Operand::Use(Reg(r)))))
            }
        }
        None => Ok(None),
    }
}

/// The fault of the first entry of a phi that isn't there.
fn missing_entries(
    alloc: Global,
    function: &Function,
    reached: &[bool],
    order: &Order,
    phi: InstrId,
    operands: &[Operand],
) -> Result<Option<Invalid>, Memory>
    requires reached { AreReachedBlocks function.now reached.now }
    requires order { IsOrderOf function.now order.now }
    requires covered { (k : ℕ) → k < length operands.now → IsCoveredEntry function.now order.now.cover phi.0 (entry_of (drop k operands.now)) }
    ensures { (extents : ℕ → Extent) → ((q : ℕ) → IsGreatest function.now q (extents q)) → IfOk result (λ found. found ≡ faults.missing_entries function.now extents operands.now) }
{
    for k in 0..operands.len() {
        let found = missing_entry(
            alloc,
            function,
            reached,
            order,
            phi,
            entry_of(&operands[k..]),
        )?;
        if found.is_some() {
            return Ok(found);
        }
    }
    Ok(None)
}

/// Whether an instruction is a phi.
fn is_phi_at(numbered: &Numbered) -> bool
    ensures { result ≡ is_phi (numbered.now).1 }
{
    is_phi(&numbered.instr)
}

/// The fault of a use that isn't available.
pub(crate) fn not_available(
    alloc: Global,
    function: &Function,
    reached: &[bool],
    order: &Order,
    there: Mask,
    b: u32,
    front: Instrs<'_>,
    numbered: &Numbered,
    after: Instrs<'_>,
) -> Result<Option<Invalid>, Memory>
    requires reached { AreReachedBlocks function.now reached.now }
    requires order { IsOrderOf function.now order.now }
    requires within { b < length function.now.blocks }
    requires placed { IsPlaced function.now b (left front) numbered.now }
    requires there { IsMaskOf (available.is_physical_there function.now b (left front)) there }
    ensures { (extents : ℕ → Extent) → ((r : ℕ) → IsGreatest function.now r (extents r)) → IfOk result (λ found. found ≡ faults.not_available function.now extents (record { block = b; before = left front.entry; instr = (numbered.now).1; after = left after.entry })) }
{
    let _ = after;
    if is_phi_at(numbered) {
        let operands = numbered.instr.operands.as_slice();
        let phi = id_of(numbered);
        let found = missing_entries(alloc, function, reached, order, phi, operands)?;
        Ok(found)
    } else {
        let found = missing_use(alloc, function, reached, order, there, b, front, numbered)?;
        Ok(found)
    }
}
