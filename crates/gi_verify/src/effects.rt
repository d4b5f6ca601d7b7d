//! The physical registers that instructions read and define, and those that are used first behind each instruction of a
//! block.

ghost use Rattle.std.specs.Prelude.{◌≡◌, ◌<◌, ◌+◌, ◌||◌, ◌&&◌, ◌++◌, ◌∷◌, [], not, IfOk, OnOk, length, drop};
ghost use Rattle.std.specs.List.{list_any};
ghost use Rattle.gi_valid.specs.Definitions as definitions;
ghost use Rattle.gi_valid.specs.Faults as faults;
ghost use Rattle.gi_mir.specs.Edit.{block_at};
ghost use Rattle.gi_verify.specs.Masks.{AreEffects, AreUsedBehind, IsEffect, IsMaskOf, has};

use crate::mask::{Mask, either, none, with, without};
use gi_llt::Memory;
use gi_mir::block::Numbered;
use gi_mir::function::Function;
use gi_mir::operand::Operand;
use std::alloc::Global;

/// The physical registers that an instruction reads and defines.
#[derive(Clone, Copy)]
pub(crate) struct Effect {
    pub(crate) uses: Mask,
    pub(crate) definitions: Mask,
}

/// A set with the register that an operand defines.
fn with_definition(mask: Mask, operand: Operand) -> Mask
    ensures { IsMaskOf (λ n. has mask n || definitions.is_physical_def_of n operand) result }
{
    match operand {
        Operand::PhysDef(n) | Operand::ImplicitDef(n) => with(mask, n),
        _ => mask,
    }
}

/// A set with the register that an operand reads.
fn with_use(mask: Mask, operand: Operand) -> Mask
    ensures { IsMaskOf (λ n. has mask n || definitions.is_physical_use_of n operand) result }
{
    match operand {
        Operand::Phys(n) | Operand::ImplicitUse(n) => with(mask, n),
        _ => mask,
    }
}

/// The registers that operands define.
fn definitions_in(operands: &[Operand]) -> Mask
    ensures { IsMaskOf (λ n. list_any (definitions.is_physical_def_of n) operands.now) result }
{
    let mut mask = none();
    for operand in operands {
        mask = with_definition(mask, *operand);
    }
    mask
}

/// The registers that operands read.
fn uses_in(operands: &[Operand]) -> Mask
    ensures { IsMaskOf (λ n. list_any (definitions.is_physical_use_of n) operands.now) result }
{
    let mut mask = none();
    for operand in operands {
        mask = with_use(mask, *operand);
    }
    mask
}

/// What an instruction reads and defines.
pub(crate) fn effect_of(numbered: &Numbered) -> Effect
    ensures { IsEffect numbered.now result }
{
    let operands = numbered.instr.operands.as_slice();
    Effect {
        uses: uses_in(operands),
        definitions: definitions_in(operands),
    }
}

/// Puts what an instruction reads and defines behind that of others.
fn push(effects: &mut Vec<Effect>, effect: Effect) -> Result<(), Memory>
    ensures { OnOk result (effects.new.items ≡ effects.old.items ++ effect ∷ []) }
{
    match effects.push(effect) {
        Ok(()) => Ok(()),
        Err(_) => Err(Memory),
    }
}

/// What each instruction of a block reads and defines.
pub(crate) fn effects_of(alloc: Global, function: &Function, b: u32) -> Result<Vec<Effect>, Memory>
    requires { b < length function.now.blocks }
    ensures { IfOk result (λ effects. AreEffects (block_at function.now b).instrs effects.items) }
{
    let mut effects = Vec::new(alloc);
    let instrs = function.instrs(b);
    for numbered in instrs {
        push(&mut effects, effect_of(numbered))?;
    }
    Ok(effects)
}

/// The registers that are used first from an instruction on, by those that are behind it.
fn used_from(effect: Effect, behind: Mask) -> Mask
    ensures { IsMaskOf (λ n. has effect.uses n || (not (has effect.definitions n) && has behind n)) result }
{
    either(effect.uses, without(behind, effect.definitions))
}

/// Puts a set at the end of a list.
fn push_mask(masks: &mut Vec<Mask>, mask: Mask) -> Result<(), Memory>
    ensures { OnOk result (masks.new.items ≡ masks.old.items ++ mask ∷ []) }
{
    match masks.push(mask) {
        Ok(()) => Ok(()),
        Err(_) => Err(Memory),
    }
}

/// The registers that are used first behind each instruction of a block, from the last one on.
pub(crate) fn used_behind(
    alloc: Global,
    function: &Function,
    b: u32,
    effects: &[Effect],
) -> Result<Vec<Mask>, Memory>
    requires effects { AreEffects (block_at function.now b).instrs effects.now }
    ensures { IfOk result (λ used. AreUsedBehind (block_at function.now b).instrs (length effects.now) used.items) }
{
    let _ = function;
    let count = effects.len();
    let mut used = Vec::new(alloc);
    let mut behind = none();
    for done in 0..count {
        push_mask(&mut used, behind)?;
        behind = used_from(effects[count - 1 - done], behind);
    }
    Ok(used)
}

/// The registers that are used first behind an instruction of a block.
pub(crate) fn used_at(function: &Function, b: u32, used: &[Mask], k: usize) -> Mask
    requires here { k < length (block_at function.now b).instrs }
    requires used { AreUsedBehind (block_at function.now b).instrs (length (block_at function.now b).instrs) used.now }
    ensures { IsMaskOf (λ n. faults.is_used_first n (drop (k + 1) (block_at function.now b).instrs)) result }
{
    let _ = function;
    used[used.len() - 1 - k]
}
