//! The register that hasn't room for what is in memory, with whose type the row of an instruction can't be met, or that isn't as
//! wide as the instruction's constant; and instructions that may come to be calls.

ghost use Rattle.std.specs.Prelude.{◌≡◌, ◌++◌, ◌∷◌, ◌≤◌, ◌⊎◌, [], ℕ, Some, None, IfOk, length, map, option_map, nat_lt, ◌&&◌, false, if◌then◌else◌};
ghost use Rattle.gi_llt.specs.Llt.{width_of};
ghost use Rattle.gi_mir.specs.Data.{reg_of};
ghost use Rattle.gi_valid.specs.declared.invalid.Invalid.TheVariants as Invalid;
ghost use Rattle.std.specs.Option.{option_map_or};
ghost use Rattle.gi_valid.specs.Faults as faults;
ghost use Rattle.gi_meaning.specs.InRow as in_row;
ghost use Rattle.gi_valid.specs.Typing as typings;

use crate::registers::{count_results, first_unmet, registers_of, results_in, type_in, types_of};
use crate::room::roomless;
use gi_llt::{Llt, Memory, Target, width};
use gi_mir::entry::RoutineCall;
use gi_mir::function::Function;
use gi_mir::instr::Instr;
use gi_mir::opcode::Opcode;
use gi_mir::operand::{Operand, Reg};
use gi_mir::stage::Stage;
use gi_mir::typing::Typing;
use gi_valid::Invalid;
use std::alloc::Global;

/// The register with whose type a row with this typing can't be met.
fn unmet(
    alloc: Global,
    x: u16,
    stage: Stage,
    function: &Function,
    typing: Option<Typing>,
    operands: &[Operand],
) -> Result<Option<u32>, Memory>
    requires { x ≤ 64 }
    ensures { IfOk result (λ found. found ≡ typings.unmet x (typings.type_in (typings.phase_of stage) function.now) typing operands.now) }
{
    match typing {
        Some(typing) => {
            let registers = registers_of(alloc, operands)?;
            let types = types_of(alloc, stage, function, registers.as_slice())?;
            let results = count_results(operands);
            first_unmet(
                alloc,
                x,
                &typing,
                results,
                registers.as_slice(),
                types.as_slice(),
            )
        }
        None => Ok(None),
    }
}

/// Whether this is a constant.
fn is_constant(op: Opcode) -> bool
    ensures { result ≡ typings.is_constant_op op }
{
    matches!(op, Opcode::GenericConstant)
}

/// Whether a type is so many bits wide, where it is known.
fn is_as_wide(target: Target, bits: u16, ty: Option<Llt>) -> bool
    requires { (target.xlen ≡ 32) ⊎ (target.xlen ≡ 64) }
    ensures { result ≡ typings.is_as_wide target.xlen bits ty }
{
    match ty {
        Some(ty) => width(ty, target) == bits,
        None => true,
    }
}

/// This register, where it isn't so many bits wide.
fn unless_as_wide(
    target: Target,
    stage: Stage,
    function: &Function,
    r: u32,
    bits: u16,
) -> Option<u32>
    requires { (target.xlen ≡ 32) ⊎ (target.xlen ≡ 64) }
    ensures { result ≡ (if typings.is_as_wide target.xlen bits (typings.type_in (typings.phase_of stage) function.now r) then None else Some r) }
{
    if is_as_wide(target, bits, type_in(stage, function, r)) {
        None
    } else {
        Some(r)
    }
}

/// The register that a constant's operands define, where it isn't as wide as the constant.
fn unsized_in(
    target: Target,
    stage: Stage,
    function: &Function,
    operands: &[Operand],
) -> Option<u32>
    requires { (target.xlen ≡ 32) ⊎ (target.xlen ≡ 64) }
    ensures { result ≡ typings.unsized target.xlen (typings.type_in (typings.phase_of stage) function.now) operands.now }
{
    match operands {
        [Operand::Def(r, _), Operand::Constant(bits, _)] => {
            unless_as_wide(target, stage, function, r.0, *bits)
        }
        _ => None,
    }
}

/// The register of a constant, where it isn't as wide as the constant.
fn unsized_constant(target: Target, stage: Stage, function: &Function, instr: &Instr) -> Option<u32>
    requires { (target.xlen ≡ 32) ⊎ (target.xlen ≡ 64) }
    ensures { result ≡ (if typings.is_constant_op (instr.now).op then typings.unsized target.xlen (typings.type_in (typings.phase_of stage) function.now) (instr.now).operands else None) }
{
    if is_constant(instr.op) {
        unsized_in(target, stage, function, instr.operands.as_slice())
    } else {
        None
    }
}

/// The register that hasn't room for what is in memory, or else with whose type the row of an instruction can't be met, or that isn't
/// as wide as the instruction's constant.
#[tactic(auto, using(crate::proofs::Unmet::joins_none))]
fn mismatch(
    alloc: Global,
    target: Target,
    stage: Stage,
    function: &Function,
    instr: &Instr,
) -> Result<Option<u32>, Memory>
    requires { (target.xlen ≡ 32) ⊎ (target.xlen ≡ 64) }
    ensures { IfOk result (λ found. found ≡ typings.mismatch target.xlen (typings.phase_of stage) function.now instr.now) }
{
    let found = unmet(
        alloc,
        target.xlen,
        stage,
        function,
        instr.op.typing(),
        instr.operands.as_slice(),
    )?;
    let size = unsized_constant(target, stage, function, instr);
    Ok(roomless(stage, function, instr).or(found.or(size)))
}

/// The fault of a register, where there is one.
fn told_mismatch(found: Option<u32>) -> Option<Invalid>
    ensures { result ≡ option_map (λ r. Invalid.TypeMismatch (reg_of r)) found }
{
    match found {
        Some(r) => Some(Invalid::TypeMismatch(Reg(r))),
        None => None,
    }
}

/// The fault of types that don't meet the row.
pub(crate) fn type_mismatch(
    alloc: Global,
    target: Target,
    stage: Stage,
    function: &Function,
    instr: &Instr,
) -> Result<Option<Invalid>, Memory>
    requires { (target.xlen ≡ 32) ⊎ (target.xlen ≡ 64) }
    ensures { IfOk result (λ found. found ≡ option_map (λ r. Invalid.TypeMismatch (reg_of r)) (typings.mismatch target.xlen (typings.phase_of stage) function.now instr.now)) }
{
    let found = mismatch(alloc, target, stage, function, instr)?;
    Ok(told_mismatch(found))
}

/// Whether this is a generic division or remainder.
fn is_division(op: Opcode) -> bool
    ensures { result ≡ faults.is_division op }
{
    matches!(op.routine_call(), RoutineCall::Always)
}

/// Whether this is a generic product.
fn is_product(op: Opcode) -> bool
    ensures { result ≡ faults.is_product op }
{
    matches!(op.routine_call(), RoutineCall::WhereWider)
}

/// Whether a type is wider than a register.
fn is_wide(target: Target, ty: Option<Llt>) -> bool
    requires { (target.xlen ≡ 32) ⊎ (target.xlen ≡ 64) }
    ensures { result ≡ option_map_or (λ t. nat_lt target.xlen (width_of target.xlen t)) ty false }
{
    match ty {
        Some(ty) => target.xlen < width(ty, target),
        None => false,
    }
}

/// Whether the first of these registers is wider than a word.
fn is_wider(target: Target, stage: Stage, function: &Function, registers: &[u32]) -> bool
    requires { (target.xlen ≡ 32) ⊎ (target.xlen ≡ 64) }
    ensures { result ≡ faults.is_wider target.xlen (typings.phase_of stage) function.now registers.now }
{
    match registers {
        [] => false,
        [first, ..] => is_wide(target, type_in(stage, function, *first)),
    }
}

/// Whether a product is wider than a word.
fn is_wide_product(
    alloc: Global,
    target: Target,
    stage: Stage,
    function: &Function,
    instr: &Instr,
) -> Result<bool, Memory>
    requires { (target.xlen ≡ 32) ⊎ (target.xlen ≡ 64) }
    ensures { IfOk result (λ t. t ≡ (faults.is_product (instr.now).op && faults.is_wider target.xlen (typings.phase_of stage) function.now (in_row.results_in (instr.now).operands))) }
{
    if is_product(instr.op) {
        let registers = results_in(alloc, instr.operands.as_slice())?;
        Ok(is_wider(target, stage, function, registers.as_slice()))
    } else {
        Ok(false)
    }
}

/// Whether an instruction may come to be a call.
pub(crate) fn may_call(
    alloc: Global,
    target: Target,
    stage: Stage,
    function: &Function,
    instr: &Instr,
) -> Result<bool, Memory>
    requires { (target.xlen ≡ 32) ⊎ (target.xlen ≡ 64) }
    ensures { IfOk result (λ t. t ≡ faults.may_call target.xlen (typings.phase_of stage) function.now instr.now) }
{
    if instr.op.is_call() || is_division(instr.op) {
        Ok(true)
    } else {
        is_wide_product(alloc, target, stage, function, instr)
    }
}
