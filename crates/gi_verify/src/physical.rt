//! Physical registers: where they are available, and those that are used behind what may overwrite them.

ghost use Rattle.std.specs.Prelude.{◌≡◌, ◌<◌, ◌≤◌, ◌+◌, ◌⊎◌, ◌||◌, ◌&&◌, ◌==◌, not, [], Some, None, IfOk, length, find, nat_lt, option_map, take};
ghost use Rattle.std.specs.List.{range_with_len};
ghost use Rattle.gi_mir.specs.Edit.{block_at};
ghost use Rattle.gi_meaning.specs.Runs.{is_among};
ghost use Rattle.gi_valid.specs.Available as available;
ghost use Rattle.gi_valid.specs.Faults as faults;
ghost use Rattle.gi_valid.specs.Typing as typings;
ghost use Rattle.gi_valid.specs.declared.invalid.Invalid.TheVariants as Invalid;
ghost use Rattle.gi_verify.specs.Masks.{AreEffects, IsMaskOf, has};
ghost use Rattle.gi_mir.specs.Instrs.{left};

use crate::effects::{Effect, effect_of};
use crate::mask::{Mask, both, either, has, none, with, without};
use crate::mismatch::may_call;
use gi_llt::{Memory, Target};
use gi_mir::block::Numbered;
use gi_mir::function::Function;
use gi_mir::instrs::Instrs;
use gi_mir::stage::Stage;
use gi_valid::Invalid;
use std::alloc::Global;

/// A set with each of these registers.
fn with_all(mask: Mask, registers: &[u8]) -> Mask
    ensures { IsMaskOf (λ n. has mask n || is_among n registers.now) result }
{
    let mut all = mask;
    for n in registers {
        all = with(all, *n);
    }
    all
}

/// The registers that are available everywhere.
#[tactic(auto, using(crate::proofs::Masking::always_in))]
fn always() -> Mask
    ensures { IsMaskOf (λ n. (n == 0) || (n == 2)) result }
{
    with(with(none(), 0), 2)
}

/// The physical registers that are available at the start of a block.
pub(crate) fn there_at_start(function: &Function, way_back: bool, b: u32) -> Mask
    requires within { b < length function.now.blocks }
    requires way_back { way_back ≡ nat_lt 0 (length (available.predecessors function.now 0)) }
    ensures { IsMaskOf (available.is_physical_at_start function.now b) result }
{
    if b == 0 && !way_back {
        with_all(always(), function.block(b).liveins.as_slice())
    } else {
        always()
    }
}

/// The physical registers that are available behind one more instruction of a block.
pub(crate) fn there_with(
    function: &Function,
    b: u32,
    effects: &[Effect],
    k: usize,
    there: Mask,
) -> Mask
    requires here { k < length (block_at function.now b).instrs }
    requires effects { AreEffects (block_at function.now b).instrs effects.now }
    requires there { IsMaskOf (available.is_physical_there function.now b (take k (block_at function.now b).instrs)) there }
    ensures { IsMaskOf (available.is_physical_there function.now b (take (k + 1) (block_at function.now b).instrs)) result }
{
    let _ = function;
    let effect = effects[k];
    either(there, effect.definitions)
}

/// Whether a physical register is available behind the front of a block.
pub(crate) fn is_physical_there(
    function: &Function,
    there: Mask,
    b: u32,
    front: Instrs<'_>,
    n: u8,
) -> bool
    requires within { n < 32 }
    requires there { IsMaskOf (available.is_physical_there function.now b (left front)) there }
    ensures { result ≡ available.is_physical_there function.now b (left front.entry) n }
{
    let _ = function;
    let _ = front;
    has(there, n)
}

/// The physical registers that are used behind an instruction that may overwrite them.
#[tactic(auto, using(crate::proofs::Masking::across_in))]
fn across(
    function: &Function,
    there: Mask,
    used: Mask,
    b: u32,
    front: Instrs<'_>,
    numbered: &Numbered,
    after: Instrs<'_>,
) -> Mask
    requires there { IsMaskOf (available.is_physical_there function.now b (left front)) there }
    requires used { IsMaskOf (λ n. faults.is_used_first n (left after)) used }
    ensures { IsMaskOf (faults.goes_across function.now (record { block = b; before = left front.entry; instr = (numbered.now).1; after = left after.entry })) result }
{
    let _ = function;
    let _ = b;
    let _ = front;
    let _ = after;
    let own = effect_of(numbered).definitions;
    let kept = either(always(), own);
    without(both(there, used), kept)
}

/// The lowest register below a number that is.
fn first_across(
    function: &Function,
    there: Mask,
    used: Mask,
    b: u32,
    front: Instrs<'_>,
    numbered: &Numbered,
    after: Instrs<'_>,
    end: u8,
) -> Option<u8>
    requires within { end ≤ 32 }
    requires there { IsMaskOf (available.is_physical_there function.now b (left front)) there }
    requires used { IsMaskOf (λ n. faults.is_used_first n (left after)) used }
    ensures { result ≡ find (faults.goes_across function.now (record { block = b; before = left front.entry; instr = (numbered.now).1; after = left after.entry })) (range_with_len 0 end) }
{
    let mask = across(function, there, used, b, front, numbered, after);
    for n in 0..end {
        if has(mask, n) {
            return Some(n);
        }
    }
    None
}

/// The fault of a register, where there is one.
fn told_across(found: Option<u8>) -> Option<Invalid>
    ensures { result ≡ option_map Invalid.PhysicalAcross found }
{
    match found {
        Some(n) => Some(Invalid::PhysicalAcross(n)),
        None => None,
    }
}

/// The fault of a physical register behind an instruction that may come to be a call.
pub(crate) fn physical_across(
    alloc: Global,
    target: Target,
    stage: Stage,
    function: &Function,
    there: Mask,
    used: Mask,
    b: u32,
    front: Instrs<'_>,
    numbered: &Numbered,
    after: Instrs<'_>,
) -> Result<Option<Invalid>, Memory>
    requires xlen { (target.xlen ≡ 32) ⊎ (target.xlen ≡ 64) }
    requires there { IsMaskOf (available.is_physical_there function.now b (left front)) there }
    requires used { IsMaskOf (λ n. faults.is_used_first n (left after)) used }
    ensures { IfOk result (λ found. found ≡ faults.physical_across target.xlen (typings.phase_of stage) function.now (record { block = b; before = left front.entry; instr = (numbered.now).1; after = left after.entry })) }
{
    if may_call(alloc, target, stage, function, &numbered.instr)? {
        Ok(told_across(first_across(function, there, used, b, front, numbered, after, 32)))
    } else {
        Ok(None)
    }
}
