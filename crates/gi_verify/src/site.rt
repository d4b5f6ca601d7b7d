//! What is told of the sites of a function.

ghost use Rattle.std.specs.Prelude.{◌≡◌, ◌<◌, ◌⊎◌, ℕ, IfOk, length, nat_lt};
ghost use Rattle.std.specs.Option.{option_or};
ghost use Rattle.gi_valid.specs.Available as available;
ghost use Rattle.gi_valid.specs.Available.{Extent};
ghost use Rattle.gi_valid.specs.Faults as faults;
ghost use Rattle.gi_valid.specs.Typing as typings;
ghost use Rattle.gi_valid.specs.Valid.{IsGreatest, of_lowest_line};
ghost use Rattle.gi_verify.specs.Masks.{IsMaskOf};
ghost use Rattle.gi_verify.specs.Sets as sets;
ghost use Rattle.gi_verify.specs.Sets.{AllTold, AreReachedBlocks, AreTold, IsTold};
ghost use Rattle.gi_verify.specs.Settled.{IsOrderOf, IsPlaced};
ghost use Rattle.gi_mir.specs.Edit.{block_at};
ghost use Rattle.gi_verify.specs.Named.{ArePredecessors};
ghost use Rattle.gi_verify.specs.Passed.{IsPassed};
ghost use Rattle.gi_mir.specs.Instrs.{left};

use crate::blocks::{blocks_in, unknown_among};
use crate::effects::{effects_of, used_at, used_behind};
use crate::ends::{phi_entries, terminator};
use crate::lowest::{is_told_above, told_with};
use crate::mask::Mask;
use crate::mismatch::type_mismatch;
use crate::passed::{Passed, nothing, passed_with};
use crate::physical::{physical_across, there_at_start, there_with};
use crate::predecessors::Predecessors;
use crate::settled::Order;
use crate::uses::not_available;
use gi_llt::{Memory, Target};
use gi_mir::block::Numbered;
use gi_mir::function::Function;
use gi_mir::instr::Instr;
use gi_mir::instrs::Instrs;
use gi_mir::stage::Stage;
use gi_valid::{Fault, Invalid};
use std::alloc::Global;

/// The fault of a block among the operands that isn't there.
fn unknown_block(
    alloc: Global,
    function: &Function,
    instr: &Instr,
) -> Result<Option<Invalid>, Memory>
    ensures { IfOk result (λ found. found ≡ faults.unknown_among function.now (faults.blocks_in (instr.now).operands)) }
{
    let blocks = blocks_in(alloc, instr.operands.as_slice())?;
    Ok(unknown_among(function, blocks.as_slice()))
}

/// The first of two faults that is there.
fn first(a: Option<Invalid>, b: Option<Invalid>) -> Option<Invalid>
    ensures { result ≡ option_or a b }
{
    a.or(b)
}

/// What is told of physical registers and terminators.
fn late_in(
    alloc: Global,
    target: Target,
    stage: Stage,
    function: &Function,
    all: &Predecessors,
    there: Mask,
    used: Mask,
    b: u32,
    passed: Passed,
    front: Instrs<'_>,
    numbered: &Numbered,
    after: Instrs<'_>,
) -> Result<Option<Invalid>, Memory>
    requires xlen { (target.xlen ≡ 32) ⊎ (target.xlen ≡ 64) }
    requires within { b < length function.now.blocks }
    requires all { ArePredecessors function.now all.now }
    requires there { IsMaskOf (available.is_physical_there function.now b (left front)) there }
    requires used { IsMaskOf (λ n. faults.is_used_first n (left after)) used }
    requires passed { IsPassed (left front) passed }
    ensures { IfOk result (λ found. found ≡ option_or (faults.physical_across target.xlen (typings.phase_of stage) function.now (record { block = b; before = left front.entry; instr = (numbered.now).1; after = left after.entry })) (faults.terminator function.now (record { block = b; before = left front.entry; instr = (numbered.now).1; after = left after.entry }))) }
{
    let across = physical_across(
        alloc, target, stage, function, there, used, b, front, numbered, after,
    )?;
    match terminator(
        alloc,
        function,
        all,
        b,
        passed,
        front,
        &numbered.instr,
        after,
    ) {
        Ok(ends) => Ok(first(across, ends)),
        Err(_) => Err(Memory),
    }
}

/// What is told first of a site where its registers are available.
fn others_in(
    alloc: Global,
    target: Target,
    stage: Stage,
    function: &Function,
    all: &Predecessors,
    there: Mask,
    used: Mask,
    b: u32,
    passed: Passed,
    front: Instrs<'_>,
    numbered: &Numbered,
    after: Instrs<'_>,
) -> Result<Option<Invalid>, Memory>
    requires xlen { (target.xlen ≡ 32) ⊎ (target.xlen ≡ 64) }
    requires within { b < length function.now.blocks }
    requires all { ArePredecessors function.now all.now }
    requires there { IsMaskOf (available.is_physical_there function.now b (left front)) there }
    requires used { IsMaskOf (λ n. faults.is_used_first n (left after)) used }
    requires passed { IsPassed (left front) passed }
    ensures { IfOk result (λ found. found ≡ faults.others_in target.xlen (typings.phase_of stage) function.now (record { block = b; before = left front.entry; instr = (numbered.now).1; after = left after.entry })) }
{
    let types = type_mismatch(alloc, target, stage, function, &numbered.instr)?;
    let blocks = unknown_block(alloc, function, &numbered.instr)?;
    let entries = phi_entries(
        alloc,
        function,
        all,
        b,
        passed,
        front,
        &numbered.instr,
        after,
    )?;
    let late = late_in(
        alloc, target, stage, function, all, there, used, b, passed, front, numbered, after,
    )?;
    Ok(first(types, first(blocks, first(entries, late))))
}

/// What is told first of a site.
pub(crate) fn fault_in(
    alloc: Global,
    target: Target,
    stage: Stage,
    function: &Function,
    reached: &[bool],
    order: &Order,
    all: &Predecessors,
    there: Mask,
    used: Mask,
    b: u32,
    passed: Passed,
    front: Instrs<'_>,
    numbered: &Numbered,
    after: Instrs<'_>,
) -> Result<Option<Invalid>, Memory>
    requires xlen { (target.xlen ≡ 32) ⊎ (target.xlen ≡ 64) }
    requires reached { AreReachedBlocks function.now reached.now }
    requires order { IsOrderOf function.now order.now }
    requires within { b < length function.now.blocks }
    requires placed { IsPlaced function.now b (left front) numbered.now }
    requires all { ArePredecessors function.now all.now }
    requires there { IsMaskOf (available.is_physical_there function.now b (left front)) there }
    requires used { IsMaskOf (λ n. faults.is_used_first n (left after)) used }
    requires passed { IsPassed (left front) passed }
    ensures { (extents : ℕ → Extent) → ((r : ℕ) → IsGreatest function.now r (extents r)) → IfOk result (λ found. found ≡ faults.fault_in target.xlen (typings.phase_of stage) function.now extents (record { block = b; before = left front.entry; instr = (numbered.now).1; after = left after.entry })) }
{
    let missing = not_available(
        alloc, function, reached, order, there, b, front, numbered, after,
    )?;
    let others = others_in(
        alloc, target, stage, function, all, there, used, b, passed, front, numbered, after,
    )?;
    Ok(first(missing, others))
}

/// The line of an instruction.
fn line_of(numbered: &Numbered) -> u32
    ensures { result ≡ (numbered.now).1.line }
{
    numbered.instr.line
}

/// What is lowest with what is told of a site. Behind a fault of a lower line nothing is asked of it.
fn tell_site(
    alloc: Global,
    target: Target,
    stage: Stage,
    function: &Function,
    reached: &[bool],
    order: &Order,
    all: &Predecessors,
    there: Mask,
    used: Mask,
    b: u32,
    passed: Passed,
    front: Instrs<'_>,
    numbered: &Numbered,
    after: Instrs<'_>,
    told: Option<Fault>,
) -> Result<Option<Fault>, Memory>
    requires xlen { (target.xlen ≡ 32) ⊎ (target.xlen ≡ 64) }
    requires reached { AreReachedBlocks function.now reached.now }
    requires order { IsOrderOf function.now order.now }
    requires within { b < length function.now.blocks }
    requires all { ArePredecessors function.now all.now }
    requires placed { IsPlaced function.now b (left front) numbered.now }
    requires there { IsMaskOf (available.is_physical_there function.now b (left front)) there }
    requires used { IsMaskOf (λ n. faults.is_used_first n (left after)) used }
    requires passed { IsPassed (left front) passed }
    ensures { IfOk result (λ lowest. IsTold target.xlen (typings.phase_of stage) function.now b (left front.entry) numbered.now (left after.entry) told lowest) }
{
    let line = line_of(numbered);
    if is_told_above(told, line) {
        return Ok(told);
    }
    let what = fault_in(
        alloc, target, stage, function, reached, order, all, there, used, b, passed, front,
        numbered, after,
    )?;
    Ok(told_with(told, line, what))
}

/// What is lowest with what is told of the sites of a block.
fn tell_block(
    alloc: Global,
    target: Target,
    stage: Stage,
    function: &Function,
    reached: &[bool],
    order: &Order,
    all: &Predecessors,
    way_back: bool,
    b: u32,
    told: Option<Fault>,
) -> Result<Option<Fault>, Memory>
    requires xlen { (target.xlen ≡ 32) ⊎ (target.xlen ≡ 64) }
    requires reached { AreReachedBlocks function.now reached.now }
    requires order { IsOrderOf function.now order.now }
    requires within { b < length function.now.blocks }
    requires all { ArePredecessors function.now all.now }
    requires way_back { way_back ≡ nat_lt 0 (length (available.predecessors function.now 0)) }
    ensures { IfOk result (λ lowest. AreTold target.xlen (typings.phase_of stage) function.now b (block_at function.now b).instrs told lowest) }
{
    let effects = effects_of(alloc, function, b)?;
    let behind = used_behind(alloc, function, b, effects.as_slice())?;
    let instrs = function.instrs(b);
    let _length = instrs.len();
    let mut there = there_at_start(function, way_back, b);
    let mut passed = nothing();
    let mut lowest = told;
    let mut rest = instrs;
    let mut k = 0;
    while let Some(numbered) = rest.next() {
        let front = instrs.first(k);
        let used = used_at(function, b, behind.as_slice(), k);
        lowest = tell_site(
            alloc, target, stage, function, reached, order, all, there, used, b, passed, front,
            numbered, rest, lowest,
        )?;
        there = there_with(function, b, effects.as_slice(), k, there);
        passed = passed_with(passed, front, numbered);
        k += 1;
    }
    Ok(lowest)
}

/// What is lowest with what is told of the sites of a function.
pub(crate) fn tell_sites(
    alloc: Global,
    target: Target,
    stage: Stage,
    function: &Function,
    reached: &[bool],
    order: &Order,
    all: &Predecessors,
    way_back: bool,
    told: Option<Fault>,
) -> Result<Option<Fault>, Memory>
    requires xlen { (target.xlen ≡ 32) ⊎ (target.xlen ≡ 64) }
    requires reached { AreReachedBlocks function.now reached.now }
    requires order { IsOrderOf function.now order.now }
    requires all { ArePredecessors function.now all.now }
    requires way_back { way_back ≡ nat_lt 0 (length (available.predecessors function.now 0)) }
    ensures { IfOk result (λ lowest. AllTold target.xlen (typings.phase_of stage) function.now told lowest) }
{
    let mut lowest = told;
    for b in 0..function.block_count() {
        lowest = tell_block(
            alloc, target, stage, function, reached, order, all, way_back, b, lowest,
        )?;
    }
    Ok(lowest)
}

/// The line of the last of these instructions, and this one where there is none.
fn last_line(line: u32, instrs: Instrs<'_>) -> u32
    ensures { result ≡ faults.last_line line (left instrs.entry) }
{
    let mut last = line;
    for numbered in instrs {
        last = numbered.instr.line;
    }
    last
}

/// The fault of a successor of a block that isn't there.
fn unknown_successor(function: &Function, b: u32) -> Option<Invalid>
    requires { b < length function.now.blocks }
    ensures { result ≡ faults.unknown_among function.now (block_at function.now b).successors }
{
    unknown_among(function, function.block(b).successors.as_slice())
}

/// What is lowest with what is told of the lists of successors.
pub(crate) fn tell_successors(function: &Function, told: Option<Fault>) -> Option<Fault>
    ensures { result ≡ sets.lowest_of told (of_lowest_line (faults.unknown_successors function.now 1 function.now.blocks)) }
{
    let mut line = 1;
    let mut lowest = told;
    for b in 0..function.block_count() {
        line = last_line(line, function.instrs(b));
        let what = unknown_successor(function, b);
        lowest = told_with(lowest, line, what);
    }
    lowest
}
