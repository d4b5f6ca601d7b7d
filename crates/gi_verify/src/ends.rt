//! Terminators, and phis at the front of their block.

ghost use Rattle.std.specs.Prelude.{◌≡◌, ◌<◌, ◌||◌, ◌&&◌, not, [], Some, None, IfOk, length};
ghost use Rattle.std.specs.List.{list_all};
ghost use Rattle.gi_mir.specs.Row.{is_branch_op};
ghost use Rattle.gi_meaning.specs.Runs.{is_among, is_phi};
ghost use Rattle.gi_valid.specs.Available.{predecessors, successors_of};
ghost use Rattle.gi_valid.specs.Faults as faults;
ghost use Rattle.gi_verify.specs.Named.{ArePredecessors};
ghost use Rattle.gi_verify.specs.Passed.{IsPassed};
ghost use Rattle.gi_mir.specs.Instrs.{left};

use crate::blocks::{are_entries, blocks_in};
use crate::passed::{Passed, is_late};
use crate::predecessors::Predecessors;
use gi_llt::Memory;
use gi_mir::block::Numbered;
use gi_mir::function::Function;
use gi_mir::instr::Instr;
use gi_mir::instrs::Instrs;
use gi_valid::Invalid;
use std::alloc::Global;

/// Whether an instruction is a phi.
#[tactic(auto, using(crate::proofs::Finding::phi_by_opcode))]
pub(crate) fn is_phi(instr: &Instr) -> bool
    ensures { result ≡ is_phi instr.now }
{
    instr.op.is_phi()
}

/// Whether all of these are among the successors of a block.
fn are_successors(function: &Function, all: &Predecessors, b: u32, blocks: &[u32]) -> bool
    requires within { b < length function.now.blocks }
    requires all { ArePredecessors function.now all.now }
    ensures { result ≡ list_all (λ c. is_among c (successors_of function.now b)) blocks.now }
{
    for c in blocks {
        if !all.is_successor(function, b, *c) {
            return false;
        }
    }
    true
}

/// Whether a branch goes to no successor of its block.
fn is_astray(
    alloc: Global,
    function: &Function,
    all: &Predecessors,
    b: u32,
    instr: &Instr,
) -> Result<bool, Memory>
    requires within { b < length function.now.blocks }
    requires all { ArePredecessors function.now all.now }
    ensures { IfOk result (λ t. t ≡ (is_branch_op (instr.now).op && not (list_all (λ c. is_among c (successors_of function.now b)) (faults.blocks_in (instr.now).operands)))) }
{
    if instr.op.is_branch() {
        let blocks = blocks_in(alloc, instr.operands.as_slice())?;
        Ok(!are_successors(function, all, b, blocks.as_slice()))
    } else {
        Ok(false)
    }
}

/// Whether an instruction is the first one that stands behind the terminators.
fn is_first_late(passed: Passed, front: Instrs<'_>, instr: &Instr) -> bool
    requires passed { IsPassed (left front) passed }
    ensures { result ≡ (faults.is_late (left front.entry) instr.now && not (faults.has_late [] (left front.entry))) }
{
    is_late(passed, front, instr) && !passed.late
}

/// The fault of a terminator.
pub(crate) fn terminator(
    alloc: Global,
    function: &Function,
    all: &Predecessors,
    b: u32,
    passed: Passed,
    front: Instrs<'_>,
    instr: &Instr,
    after: Instrs<'_>,
) -> Result<Option<Invalid>, Memory>
    requires within { b < length function.now.blocks }
    requires all { ArePredecessors function.now all.now }
    requires passed { IsPassed (left front) passed }
    ensures { IfOk result (λ found. found ≡ faults.terminator function.now (record { block = b; before = left front.entry; instr = instr.now; after = left after.entry })) }
{
    let _ = after;
    if is_first_late(passed, front, instr) || is_astray(alloc, function, all, b, instr)? {
        Ok(Some(Invalid::Terminator))
    } else {
        Ok(None)
    }
}

/// Whether the entries of a phi are one for each predecessor of its block.
fn has_entries(
    alloc: Global,
    function: &Function,
    all: &Predecessors,
    b: u32,
    instr: &Instr,
) -> Result<bool, Memory>
    requires all { ArePredecessors function.now all.now }
    ensures { IfOk result (λ t. t ≡ faults.are_entries (predecessors function.now b) (faults.blocks_in (instr.now).operands)) }
{
    let _ = function;
    let entries = blocks_in(alloc, instr.operands.as_slice())?;
    are_entries(alloc, all.of(b), entries.as_slice())
}

/// The fault of a phi's entries.
pub(crate) fn phi_entries(
    alloc: Global,
    function: &Function,
    all: &Predecessors,
    b: u32,
    passed: Passed,
    front: Instrs<'_>,
    instr: &Instr,
    after: Instrs<'_>,
) -> Result<Option<Invalid>, Memory>
    requires within { b < length function.now.blocks }
    requires all { ArePredecessors function.now all.now }
    requires passed { IsPassed (left front) passed }
    ensures { IfOk result (λ found. found ≡ faults.phi_entries function.now (record { block = b; before = left front.entry; instr = instr.now; after = left after.entry })) }
{
    let _ = front;
    let _ = after;
    if !is_phi(instr) {
        return Ok(None);
    }
    let stands_first = b != 0 && passed.phis;
    if stands_first && has_entries(alloc, function, all, b, instr)? {
        Ok(None)
    } else {
        Ok(Some(Invalid::PhiEntries))
    }
}
