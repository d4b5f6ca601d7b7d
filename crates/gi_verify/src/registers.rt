//! What an instruction's virtual registers are.

ghost use Rattle.std.specs.Prelude.{◌≡◌, ◌++◌, ◌∷◌, [], ◌<◌, ◌≤◌, ◌-◌, ℕ, Some, None, false, Option, OnOk, IfOk, length, map, take, drop, replicate};
ghost use Rattle.gi_llt.specs.declared.Llt.{Llt};
ghost use Rattle.gi_mir.specs.Registers.{type_of_kind};
ghost use Rattle.gi_meaning.specs.InRow as in_row;
ghost use Rattle.gi_valid.specs.Typing as typings;
ghost use Rattle.gi_mir.specs.declared.typing.Relation.TheVariants as Relation;
ghost use Rattle.gi_verify.specs.Met.{IsLastMet, is_met_with};

use crate::typing::{meets, push};
use gi_llt::{Llt, Memory};
use gi_mir::function::Function;
use gi_mir::instr::Instr;
use gi_mir::operand::{Kind, Operand, Reg};
use gi_mir::stage::Stage;
use gi_mir::typing::{Relation, Typing};
use std::alloc::Global;

/// The type of a register of this kind.
fn type_of_kind(kind: Kind) -> Option<Llt>
    ensures { result ≡ type_of_kind kind }
{
    match kind {
        Kind::Generic(ty) | Kind::Banked(ty) => Some(ty),
        Kind::Class => None,
    }
}

/// The type of a register, where it hasn't every type.
pub(crate) fn type_in(stage: Stage, function: &Function, r: u32) -> Option<Llt>
    ensures { result ≡ typings.type_in (typings.phase_of stage) function.now r }
{
    match stage {
        Stage::Selected => None,
        _ => type_of_kind(function.kind_of(Reg(r))),
    }
}

/// Puts a register at the end of a list.
fn push_register(registers: &mut Vec<u32>, r: u32) -> Result<(), Memory>
    ensures { OnOk result (registers.new.items ≡ registers.old.items ++ r ∷ []) }
{
    match registers.push(r) {
        Ok(()) => Ok(()),
        Err(_) => Err(Memory),
    }
}

/// Puts the register that an operand defines at the end of a list.
fn push_result(registers: &mut Vec<u32>, operand: Operand) -> Result<(), Memory>
    ensures { OnOk result (registers.new.items ≡ registers.old.items ++ in_row.results_in (operand ∷ [])) }
{
    match operand {
        Operand::Def(r, _) => push_register(registers, r.0),
        _ => Ok(()),
    }
}

/// Puts the register that an operand reads at the end of a list.
fn push_source(registers: &mut Vec<u32>, operand: Operand) -> Result<(), Memory>
    ensures { OnOk result (registers.new.items ≡ registers.old.items ++ in_row.sources_in (operand ∷ [])) }
{
    match operand {
        Operand::Use(r) => push_register(registers, r.0),
        _ => Ok(()),
    }
}

/// The virtual registers that are defined.
pub(crate) fn results_in(alloc: Global, operands: &[Operand]) -> Result<Vec<u32>, Memory>
    ensures { IfOk result (λ registers. registers.items ≡ in_row.results_in operands.now) }
{
    let mut registers = Vec::new(alloc);
    for operand in operands {
        push_result(&mut registers, *operand)?;
    }
    Ok(registers)
}

/// Puts the virtual registers that are read at the end of a list.
fn push_sources(registers: &mut Vec<u32>, operands: &[Operand]) -> Result<(), Memory>
    ensures { OnOk result (registers.new.items ≡ registers.old.items ++ in_row.sources_in operands.now) }
{
    for operand in operands {
        push_source(registers, *operand)?;
    }
    Ok(())
}

/// The types of registers.
pub(crate) fn types_of(
    alloc: Global,
    stage: Stage,
    function: &Function,
    registers: &[u32],
) -> Result<Vec<Option<Llt>>, Memory>
    ensures { IfOk result (λ types. types.items ≡ map (typings.type_in (typings.phase_of stage) function.now) registers.now) }
{
    let mut types = Vec::new(alloc);
    for r in registers {
        push(&mut types, type_in(stage, function, *r))?;
    }
    Ok(types)
}

/// So many types at the end of a list that aren't known.
fn push_unknown(types: &mut Vec<Option<Llt>>, count: usize) -> Result<(), Memory>
    ensures { OnOk result (types.new.items ≡ types.old.items ++ replicate count None) }
{
    for _done in 0..count {
        push(types, None)?;
    }
    Ok(())
}

/// The first types of a list, and for each other one every type.
fn masked(alloc: Global, types: &[Option<Llt>], count: usize) -> Result<Vec<Option<Llt>>, Memory>
    requires { count ≤ length types.now }
    ensures { IfOk result (λ known. known.items ≡ take count types.now ++ replicate (length types.now - count) None) }
{
    let mut known = Vec::new(alloc);
    for ty in &types[..count] {
        push(&mut known, *ty)?;
    }
    push_unknown(&mut known, types.len() - count)?;
    Ok(known)
}

/// Whether the row can be met with the first types of a list.
fn is_met(
    alloc: Global,
    x: u16,
    typing: &Typing,
    results: usize,
    types: &[Option<Llt>],
    count: usize,
) -> Result<bool, Memory>
    requires small { x ≤ 64 }
    requires within { count ≤ length types.now }
    requires results { results ≤ length types.now }
    ensures { IfOk result (λ t. t ≡ is_met_with x typing.now results types.now count) }
{
    let known = masked(alloc, types, count)?;
    let all = known.as_slice();
    meets(alloc, x, typing, &all[..results], &all[results..])
}

/// The registers of an instruction, those that it defines first.
pub(crate) fn registers_of(alloc: Global, operands: &[Operand]) -> Result<Vec<u32>, Memory>
    ensures { IfOk result (λ registers. registers.items ≡ in_row.results_in operands.now ++ in_row.sources_in operands.now) }
{
    let mut registers = results_in(alloc, operands)?;
    push_sources(&mut registers, operands)?;
    Ok(registers)
}

/// How many registers are defined.
pub(crate) fn count_results(operands: &[Operand]) -> usize
    ensures count { result ≡ length (in_row.results_in operands.now) }
    ensures within { result ≤ length operands.now }
{
    let mut count = 0;
    for operand in operands {
        if let Operand::Def(_, _) = *operand {
            count += 1;
        }
    }
    count
}

/// With how many of the first types the row is met last, where it isn't with so many, found by halves.
fn last_met(
    alloc: Global,
    x: u16,
    typing: &Typing,
    results: usize,
    types: &[Option<Llt>],
    count: usize,
) -> Result<usize, Memory>
    requires small { x ≤ 64 }
    requires results { results ≤ length types.now }
    requires within { count ≤ length types.now }
    requires free { typing.now.relation ≡ Relation.Free }
    requires unmet { is_met_with x typing.now results types.now count ≡ false }
    ensures last { IfOk result (λ k. IsLastMet x typing.now results types.now k) }
    ensures within { IfOk result (λ k. k < count) }
{
    let mut met = 0;
    let mut unmet = count;
    while met + 1 < unmet {
        let middle = met + (unmet - met) / 2;
        if is_met(alloc, x, typing, results, types, middle)? {
            met = middle;
        } else {
            unmet = middle;
        }
    }
    Ok(met)
}

/// The first register with whose type none of the later ones would meet the row, where no types are related: a row that
/// is met with some types is then met with fewer.
#[tactic(auto, using(crate::proofs::Unmet::all_met, crate::proofs::Unmet::last_met))]
fn first_unmet_by_halves(
    alloc: Global,
    x: u16,
    typing: &Typing,
    results: usize,
    registers: &[u32],
    types: &[Option<Llt>],
) -> Result<Option<u32>, Memory>
    requires small { x ≤ 64 }
    requires count { length types.now ≡ length registers.now }
    requires results { results ≤ length types.now }
    requires free { typing.now.relation ≡ Relation.Free }
    ensures { (type_of : ℕ → Option Llt) → types.now ≡ map type_of registers.now → IfOk result (λ found. found ≡ typings.first_unmet x type_of typing.now results [] registers.now) }
{
    if is_met(alloc, x, typing, results, types, registers.len())? {
        return Ok(None);
    }
    let met = last_met(alloc, x, typing, results, types, registers.len())?;
    Ok(Some(registers[met]))
}

/// The same, one register after the other.
fn first_unmet_in_turn(
    alloc: Global,
    x: u16,
    typing: &Typing,
    results: usize,
    registers: &[u32],
    types: &[Option<Llt>],
) -> Result<Option<u32>, Memory>
    requires small { x ≤ 64 }
    requires count { length types.now ≡ length registers.now }
    requires results { results ≤ length types.now }
    ensures { (type_of : ℕ → Option Llt) → types.now ≡ map type_of registers.now → IfOk result (λ found. found ≡ typings.first_unmet x type_of typing.now results [] registers.now) }
{
    for k in 0..registers.len() {
        if !is_met(alloc, x, typing, results, types, k + 1)? {
            return Ok(Some(registers[k]));
        }
    }
    Ok(None)
}

/// The first register with whose type none of the later ones would meet the row.
pub(crate) fn first_unmet(
    alloc: Global,
    x: u16,
    typing: &Typing,
    results: usize,
    registers: &[u32],
    types: &[Option<Llt>],
) -> Result<Option<u32>, Memory>
    requires small { x ≤ 64 }
    requires count { length types.now ≡ length registers.now }
    requires results { results ≤ length types.now }
    ensures { (type_of : ℕ → Option Llt) → types.now ≡ map type_of registers.now → IfOk result (λ found. found ≡ typings.first_unmet x type_of typing.now results [] registers.now) }
{
    match typing.relation {
        Relation::Free => { first_unmet_by_halves(alloc, x, typing, results, registers, types) }
        _ => first_unmet_in_turn(alloc, x, typing, results, registers, types),
    }
}
