//! What fits a stage of a function, and which instruction is told where one doesn't.

ghost use Rattle.std.specs.Prelude.{◌≡◌, ◌⊎◌, ◌<◌, IfSome, [], length};
ghost use Rattle.std.specs.List.{list_all};
ghost use Rattle.std.specs.Option.{IfNone};
ghost use Rattle.gi_mir.specs.Edit.{block_at};
ghost use Rattle.gi_rules.specs.Fitting as fitting;

use crate::legal::is_legal;
use gi_llt::Target;
use gi_mir::function::Function;
use gi_mir::instr::Instr;
use gi_mir::opcode::Opcode;
use gi_mir::operand::Operand;
use gi_mir::stage::Stage;

/// Whether an opcode stands in a stage, on a machine of this width.
fn stands_on(x: u16, stage: Stage, op: Opcode) -> bool
    ensures { result ≡ fitting.stands_on x stage op }
{
    stage.has_opcode(op) && (x == 64 || !op.is_wide())
}

/// Whether an operand defines no register, or one of the class that a stage has.
fn is_defined_in(stage: Stage, operand: Operand) -> bool
    ensures { result ≡ fitting.is_defined_in stage operand }
{
    match operand {
        Operand::Def(_, kind) => stage.has_kind(kind),
        _ => true,
    }
}

/// The same of each operand.
fn are_defined_in(stage: Stage, operands: &[Operand]) -> bool
    ensures { result ≡ list_all (fitting.is_defined_in stage) operands.now }
{
    operands
        .iter()
        .all(|operand| is_defined_in(stage, *operand))
}

/// Whether a stage is behind the legaliser and before selection, where each instruction is legal.
fn has_legalized(stage: Stage) -> bool
    ensures { result ≡ fitting.has_legalized stage }
{
    match stage {
        Stage::Legalized | Stage::Banked => true,
        Stage::Before | Stage::Selected => false,
    }
}

/// Whether an instruction of a function fits its stage.
fn fits_stage(target: Target, stage: Stage, function: &Function, instr: &Instr) -> bool
    requires { (target.xlen ≡ 32) ⊎ (target.xlen ≡ 64) }
    ensures { result ≡ fitting.fits_stage target.xlen stage function.now instr.now }
{
    stands_on(target.xlen, stage, instr.op)
        && are_defined_in(stage, instr.operands.as_slice())
        && (!has_legalized(stage) || is_legal(target, function, instr))
}

/// The line and the opcode of an instruction that doesn't fit.
fn illegal_line(
    target: Target,
    stage: Stage,
    function: &Function,
    instr: &Instr,
) -> Option<(u32, Opcode)>
    requires { (target.xlen ≡ 32) ⊎ (target.xlen ≡ 64) }
    ensures { result ≡ fitting.illegal_line target.xlen stage function.now instr.now }
{
    if fits_stage(target, stage, function, instr) {
        None
    } else {
        Some((instr.line, instr.op))
    }
}

/// Of two lines the lower, and of one line the first.
pub fn of_lower_line(
    first: Option<(u32, Opcode)>,
    later: Option<(u32, Opcode)>,
) -> Option<(u32, Opcode)>
    ensures { result ≡ fitting.of_lower_line first later }
{
    let Some(later) = later else {
        return first;
    };
    match first {
        Some(first) if first.0 <= later.0 => Some(first),
        _ => Some(later),
    }
}

/// The first instruction of the lowest line in a block that doesn't fit.
fn first_in_block(
    target: Target,
    stage: Stage,
    function: &Function,
    block: u32,
) -> Option<(u32, Opcode)>
    requires machine { (target.xlen ≡ 32) ⊎ (target.xlen ≡ 64) }
    requires within { block < length function.now.blocks }
    ensures { fitting.IsTold (fitting.illegal_in_instrs target.xlen stage function.now (block_at function.now block).instrs) result }
{
    let mut told = None;
    for numbered in function.instrs(block) {
        told = of_lower_line(told, illegal_line(target, stage, function, &numbered.instr));
    }
    told
}

/// The line and the opcode of the instruction that doesn't fit its stage: that of the lowest line, and of one line the
/// first in layout order.
pub fn first_illegal(function: &Function, target: Target, stage: Stage) -> Option<(u32, Opcode)>
    requires { (target.xlen ≡ 32) ⊎ (target.xlen ≡ 64) }
    ensures some { IfSome result (λ told. fitting.IsFirstOfLowestLine (fitting.illegal_in target.xlen stage function.now) told) }
    ensures none { IfNone result (fitting.illegal_in target.xlen stage function.now ≡ []) }
{
    let mut told = None;
    for block in 0..function.block_count() {
        told = of_lower_line(told, first_in_block(target, stage, function, block));
    }
    told
}
