//! What selection leaves to a later time: instructions of other shapes, and functions of several blocks.

ghost use Rattle.std.specs.Prelude.{◌≡◌, None, Some};
ghost use Rattle.std.specs.List.{list_any};
ghost use Rattle.gi_mir.specs.Instrs.{left};
ghost use Rattle.gi_answer.specs.Unselected.{is_blank, last_in_blocks, last_in_instrs, last_of, other_in_blocks, other_in_instrs, other_line, unselected_in, unselected_in_function};

use crate::shapes::is_shaped;
use gi_mir::function::Function;
use gi_mir::instr::Instr;
use gi_mir::instrs::Instrs;
use gi_mir::opcode::Opcode;

/// The line and the opcode of an instruction of another shape.
fn other_line(instr: &Instr) -> Option<(u32, Opcode)>
    ensures { result ≡ other_line instr.now }
{
    if is_shaped(instr) {
        None
    } else {
        Some((instr.line, instr.op))
    }
}

/// The first of these instructions that is of another shape.
fn other_in_instrs(instrs: Instrs<'_>) -> Option<(u32, Opcode)>
    ensures { result ≡ other_in_instrs (left instrs.entry) }
{
    for numbered in instrs {
        if let Some(found) = other_line(&numbered.instr) {
            return Some(found);
        }
    }
    None
}

/// The first instruction of a function that is of another shape.
fn other_in_blocks(function: &Function) -> Option<(u32, Opcode)>
    ensures { result ≡ other_in_blocks function.now.blocks }
{
    for block in 0..function.block_count() {
        if let Some(found) = other_in_instrs(function.instrs(block)) {
            return Some(found);
        }
    }
    None
}

/// The last of these instructions, and this one where there is none.
fn last_in_instrs(before: Option<(u32, Opcode)>, instrs: Instrs<'_>) -> Option<(u32, Opcode)>
    ensures { result ≡ last_in_instrs before (left instrs.entry) }
{
    let mut last = before;
    for numbered in instrs {
        last = Some((numbered.instr.line, numbered.instr.op));
    }
    last
}

/// The last instruction of a function.
fn last_of(function: &Function) -> Option<(u32, Opcode)>
    ensures { result ≡ last_of function.now }
{
    let mut last = None;
    for block in 0..function.block_count() {
        last = last_in_instrs(last, function.instrs(block));
    }
    last
}

/// The first instruction that isn't selected: one of another shape, and of several blocks the last one.
fn unselected_in_function(function: &Function) -> Option<(u32, Opcode)>
    ensures { result ≡ unselected_in_function function.now }
{
    match other_in_blocks(function) {
        Some(found) => Some(found),
        None if function.block_count() > 1 => last_of(function),
        None => None,
    }
}

/// The first instruction of these functions that isn't selected.
pub fn unselected_in(functions: &[Function]) -> Option<(u32, Opcode)>
    ensures { result ≡ unselected_in functions.now }
{
    for function in functions {
        if let Some(found) = unselected_in_function(function) {
            return Some(found);
        }
    }
    None
}

/// Whether a function has several blocks and no instruction.
fn is_blank(function: &Function) -> bool
    ensures { result ≡ is_blank function.now }
{
    function.block_count() > 1 && last_of(function).is_none()
}

/// Whether one of these functions has several blocks and no instruction.
pub fn any_blank(functions: &[Function]) -> bool
    ensures { result ≡ list_any is_blank functions.now }
{
    functions.iter().any(|function| is_blank(function))
}
