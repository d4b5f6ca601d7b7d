//! Which rewrites may be made at a stage.

ghost use Rattle.std.specs.Prelude.{◌≡◌, ◌<◌, ◌+◌, ◌^◌, ◌⊎◌, ◌++◌, List, Some, IfOk, OnOk, length, map, slice_get};
ghost use Rattle.std.specs.List.{list_all};
ghost use Rattle.gi_llt.specs.declared.Llt.{Llt};
ghost use Rattle.gi_meaning.specs.InRow.{results_in, sources_in};
ghost use Rattle.gi_mir.specs.Accepted.{is_result_type, is_source_type};
ghost use Rattle.gi_rule_refines.specs.Stages.{each_passes, has_opcode, is_accepted, may_be_made, registers_of};
ghost use Rattle.gi_rule_use.specs.Staging.{accepts_each};
ghost use Rattle.gi_rule_valid.specs.Keeping.{on_each, on_places, place_operand};
ghost use Rattle.gi_rules.specs.Fitting.{stands_on};

use gi_llt::{Llt, Memory, Target};
use gi_mir::accepted::{is_result_type, is_source_type};
use gi_mir::opcode::Opcode;
use gi_mir::operand::Operand;
use gi_mir::stage::Stage;
use gi_rule_refines::stages::RuleStage;
use gi_rule_values::{Operation, Rewrite, Slot};

/// The stage of a function that has the registers of this one.
fn registers_of(stage: RuleStage) -> Stage
    ensures { result ≡ registers_of stage }
{
    match stage {
        RuleStage::Before => Stage::Before,
        RuleStage::Legalized => Stage::Legalized,
        RuleStage::Banked => Stage::Banked,
        RuleStage::Selecting => Stage::Banked,
        RuleStage::Selected => Stage::Selected,
    }
}

/// Whether an opcode stands in a stage of functions.
fn stands_on(target: Target, stage: Stage, op: Opcode) -> bool
    ensures { result ≡ stands_on target.xlen stage op }
{
    stage.has_opcode(op) && (target.xlen == 64 || !op.is_wide())
}

/// Whether an opcode is of a stage: while selection goes on, of before or behind it.
fn has_opcode(target: Target, stage: RuleStage, op: Opcode) -> bool
    ensures { result ≡ has_opcode target.xlen stage op }
{
    match stage {
        RuleStage::Selecting => {
            stands_on(target, Stage::Banked, op) || stands_on(target, Stage::Selected, op)
        }
        RuleStage::Before | RuleStage::Legalized | RuleStage::Banked | RuleStage::Selected =>
            stands_on(target, registers_of(stage), op),
    }
}

/// The type of a register that is a place.
fn type_at(types: &[Llt], place: u32) -> Option<Llt>
    ensures { result ≡ slice_get types.now place }
{
    types.get(place as usize).copied()
}

/// Whether an opcode accepts each of these types among its results, from a place on.
fn accepts_results(target: Target, op: Opcode, place: usize, types: &[Llt]) -> bool
    requires machine { (target.xlen ≡ 32) ⊎ (target.xlen ≡ 64) }
    requires places { place + length types.now < 2 ^ 64 }
    ensures { result ≡ each_passes (is_result_type target.xlen op) place (map (λ ty. Some ty) types.now) }
{
    match types {
        [] => true,
        [ty, rest @ ..] => is_result_type(target, op, place, *ty)
            && accepts_results(target, op, place + 1, rest),
    }
}

/// The same of registers that slots define by themselves.
fn accepts_defined(target: Target, op: Opcode, types: &[Llt], place: usize, slots: &[Slot]) -> bool
    requires machine { (target.xlen ≡ 32) ⊎ (target.xlen ≡ 64) }
    requires places { place + length slots.now < 2 ^ 64 }
    ensures { result ≡ each_passes (is_result_type target.xlen op) place (map (slice_get types.now) (results_in (map place_operand slots.now))) }
{
    match slots {
        [] => true,
        [Slot::Stands(Operand::Def(reg, _)), rest @ ..] => match type_at(types, reg.0) {
            None => false,
            Some(ty) => is_result_type(target, op, place, ty)
                && accepts_defined(target, op, types, place + 1, rest),
        },
        [_, rest @ ..] => accepts_defined(target, op, types, place, rest),
    }
}

/// Whether an opcode accepts the types that slots read, from a place among its sources on.
fn accepts_sources(target: Target, op: Opcode, types: &[Llt], place: usize, slots: &[Slot]) -> bool
    requires machine { (target.xlen ≡ 32) ⊎ (target.xlen ≡ 64) }
    requires places { place + length slots.now < 2 ^ 64 }
    ensures { result ≡ each_passes (is_source_type target.xlen op) place (map (slice_get types.now) (sources_in (map place_operand slots.now))) }
{
    match slots {
        [] => true,
        [Slot::At(read), rest @ ..] => match type_at(types, u32::from(*read)) {
            None => false,
            Some(ty) => is_source_type(target, op, place, ty)
                && accepts_sources(target, op, types, place + 1, rest),
        },
        [Slot::Stands(Operand::Use(reg)), rest @ ..] => match type_at(types, reg.0) {
            None => false,
            Some(ty) => is_source_type(target, op, place, ty)
                && accepts_sources(target, op, types, place + 1, rest),
        },
        [_, rest @ ..] => accepts_sources(target, op, types, place, rest),
    }
}

/// Whether an operation accepts the types of its results, those that it defines besides, and those that it reads.
fn accepts_all(target: Target, types: &[Llt], operation: &Operation) -> bool
    requires { (target.xlen ≡ 32) ⊎ (target.xlen ≡ 64) }
    ensures { result ≡ accepts_each target.xlen types.now operation.now }
{
    let (op, slots) = (operation.op, operation.slots.as_slice());
    let own = operation.types.as_slice();
    accepts_results(target, op, 0, own)
        && accepts_defined(target, op, types, own.len(), slots)
        && accepts_sources(target, op, types, 0, slots)
}

/// Whether an operation accepts its types, where those of its results are the last.
fn is_accepted(target: Target, types: &[Llt], operation: &Operation) -> bool
    requires { (target.xlen ≡ 32) ⊎ (target.xlen ≡ 64) }
    ensures { (before : List Llt) → types.now ≡ before ++ operation.now.types → result ≡ is_accepted target.xlen (slice_get types.now) (on_places (length before) operation.now) }
{
    accepts_all(target, types, operation)
}

/// Whether each operation accepts its types, where these are the types of the places before.
fn are_accepted(
    target: Target,
    operations: &[Operation],
    types: &mut Vec<Llt>,
) -> Result<bool, Memory>
    requires { (target.xlen ≡ 32) ⊎ (target.xlen ≡ 64) }
    ensures { IfOk result (λ accepted. accepted ≡ on_each (is_accepted target.xlen) types.old.items operations.now) }
{
    match operations {
        [] => Ok(true),
        [operation, rest @ ..] => {
            grow(types, operation.types.as_slice())?;
            if is_accepted(target, types.as_slice(), operation) {
                are_accepted(target, rest, types)
            } else {
                Ok(false)
            }
        }
    }
}

/// Adds types behind others.
fn grow(types: &mut Vec<Llt>, more: &[Llt]) -> Result<(), Memory>
    ensures { OnOk result (types.new.items ≡ types.old.items ++ more.now) }
{
    types.extend_from_slice(more).map_err(|_| Memory)
}

/// Whether opcodes are all of a stage.
fn have_opcodes(target: Target, stage: RuleStage, operations: &[Operation]) -> bool
    ensures { result ≡ list_all (λ o. has_opcode target.xlen stage o.op) operations.now }
{
    match operations {
        [] => true,
        [operation, rest @ ..] => has_opcode(target, stage, operation.op)
            && have_opcodes(target, stage, rest),
    }
}

/// Whether a rewrite may be made at a stage: what is made is of the stage, and accepts its types.
pub fn may_be_made(target: Target, stage: RuleStage, rewrite: &Rewrite) -> Result<bool, Memory>
    requires { (target.xlen ≡ 32) ⊎ (target.xlen ≡ 64) }
    ensures { IfOk result (λ may. may ≡ may_be_made target.xlen stage rewrite.now) }
{
    if !have_opcodes(target, stage, rewrite.made.as_slice()) {
        return Ok(false);
    }
    let alloc = *rewrite.inputs.allocator();
    let mut types = Vec::from_slice(alloc, rewrite.inputs.as_slice()).map_err(|_| Memory)?;
    are_accepted(target, rewrite.made.as_slice(), &mut types)
}
