//! A block and its instructions, written line by line at the end of a text.

ghost use Rattle.std.specs.Prelude.{◌≡◌, ◌++◌, ◌∷◌, ◌<◌, ◌+◌, ◌==◌, ◌&&◌, ◌||◌, [], not, OnOk};
ghost use Rattle.std.specs.List.{list_any};
ghost use Rattle.gi_llt.specs.Tokens.{Spaces, piece_bytes};
ghost use Rattle.gi_spelling.specs.Printed.{sources_pieces, instr_line, instr_lines, falls_through, implied_successors, block_pieces, physical_pieces, block_head_pieces, states_successors, liveins_lines, set_off, block_lines, text_of};
ghost use Rattle.gi_mir.specs.Instrs.{left};
ghost use Rattle.gi_mir.specs.Row.{is_unconditional_op, is_branch_op};
ghost use Rattle.gi_mir_print.specs.Shown.{kind_at, shown_instr, shown_instrs, is_target, has_target, gap_after, successors_stated};

use crate::instruction::push_instr;
use crate::pieces::{push, push_block, push_number, push_physical};
use crate::registers::Registers;
use gi_llt::Memory;
use gi_mir::block::{Block, Numbered};
use gi_mir::instrs::Instrs;
use gi_mir::names::Names;
use gi_mir::operand::Operand;

/// An instruction on a line of its own.
fn push_line(
    registers: &Registers,
    names: &Names,
    numbered: &Numbered,
    out: &mut Vec<u8>,
) -> Result<(), Memory>
    ensures { OnOk result (out.new.items ≡ out.old.items ++ (instr_line (kind_at registers.now) names.now (shown_instr registers.now (numbered.now).1) ++ 10 ∷ [])) }
{
    push(b"    ", out)?;
    push_instr(registers, names, &numbered.instr, out)?;
    push(b"\n", out)
}

/// Instructions, each on a line of its own.
fn push_lines(
    registers: &Registers,
    names: &Names,
    instrs: Instrs<'_>,
    out: &mut Vec<u8>,
) -> Result<(), Memory>
    ensures { OnOk result (out.new.items ≡ out.old.items ++ text_of (instr_lines (kind_at registers.now) names.now (shown_instrs registers.now (left instrs.entry)))) }
{
    for numbered in instrs {
        push_line(registers, names, numbered, out)?;
    }
    Ok(())
}

/// `bb.0:`
fn push_head(place: u32, out: &mut Vec<u8>) -> Result<(), Memory>
    ensures { OnOk result (out.new.items ≡ out.old.items ++ (piece_bytes (Spaces 2 ∷ block_head_pieces place) ++ 10 ∷ [])) }
{
    push(b"  bb.", out)?;
    push_number(place as u64, out)?;
    push(b":\n", out)
}

/// ` %bb.1, %bb.2`
fn push_places(places: &[u32], out: &mut Vec<u8>) -> Result<(), Memory>
    ensures { OnOk result (out.new.items ≡ out.old.items ++ piece_bytes (sources_pieces (block_pieces places.now))) }
{
    let mut lead: &[u8] = b" ";
    for place in places {
        push(lead, out)?;
        push_block(*place, out)?;
        lead = b", ";
    }
    Ok(())
}

/// ` $x10, $x11`
fn push_physicals(numbers: &[u8], out: &mut Vec<u8>) -> Result<(), Memory>
    ensures { OnOk result (out.new.items ≡ out.old.items ++ piece_bytes (sources_pieces (physical_pieces numbers.now))) }
{
    let mut lead: &[u8] = b" ";
    for number in numbers {
        push(lead, out)?;
        push_physical(*number, out)?;
        lead = b", ";
    }
    Ok(())
}

/// The line of successors, where it is stated.
fn push_successors(is_stated: bool, successors: &[u32], out: &mut Vec<u8>) -> Result<(), Memory>
    ensures { OnOk result (out.new.items ≡ out.old.items ++ text_of (successors_stated is_stated successors.now)) }
{
    if is_stated {
        push(b"    successors:", out)?;
        push_places(successors, out)?;
        push(b"\n", out)
    } else {
        Ok(())
    }
}

/// The line of registers that are live at the start, if there are any.
fn push_liveins(liveins: &[u8], out: &mut Vec<u8>) -> Result<(), Memory>
    ensures { OnOk result (out.new.items ≡ out.old.items ++ text_of (liveins_lines liveins.now)) }
{
    if liveins.is_empty() {
        Ok(())
    } else {
        push(b"    liveins:", out)?;
        push_physicals(liveins, out)?;
        push(b"\n", out)
    }
}

/// An empty line after these two lines, if either stands.
fn push_gap(
    is_stated: bool,
    successors: &[u32],
    liveins: &[u8],
    out: &mut Vec<u8>,
) -> Result<(), Memory>
    ensures { OnOk result (out.new.items ≡ out.old.items ++ gap_after (successors_stated is_stated successors.now ++ liveins_lines liveins.now)) }
{
    let _ = successors;
    if is_stated || !liveins.is_empty() {
        push(b"\n", out)
    } else {
        Ok(())
    }
}

/// The lines between a block's head and its instructions.
fn push_notes(
    is_stated: bool,
    successors: &[u32],
    liveins: &[u8],
    out: &mut Vec<u8>,
) -> Result<(), Memory>
    ensures { OnOk result (out.new.items ≡ out.old.items ++ text_of (set_off (successors_stated is_stated successors.now ++ liveins_lines liveins.now))) }
{
    push_successors(is_stated, successors, out)?;
    push_liveins(liveins, out)?;
    push_gap(is_stated, successors, liveins, out)
}

/// Whether an operand is a block.
fn is_target(operand: Operand) -> bool
    ensures { result ≡ is_target operand }
{
    matches!(operand, Operand::Block(_))
}

/// Whether a block stands among operands.
fn any_target(operands: &[Operand]) -> bool
    ensures { result ≡ list_any is_target operands.now }
{
    operands.iter().any(|operand| is_target(*operand))
}

/// Whether an instruction branches to a block.
fn has_target(numbered: &Numbered) -> bool
    ensures { result ≡ has_target numbered.now }
{
    numbered.instr.op.is_branch() && any_target(numbered.instr.operands.as_slice())
}

/// Whether an instruction branches to a block.
fn any_branch(instrs: Instrs<'_>) -> bool
    ensures { result ≡ list_any has_target (left instrs.entry) }
{
    for numbered in instrs {
        if has_target(numbered) {
            return true;
        }
    }
    false
}

/// Whether what follows an instruction may run after it.
fn goes_on(numbered: &Numbered) -> bool
    ensures { result ≡ not (is_unconditional_op ((numbered.now).1).op) }
{
    !numbered.instr.op.is_unconditional()
}

/// Whether control may go past the end of the instructions.
fn falls_through(instrs: Instrs<'_>) -> bool
    ensures { result ≡ falls_through (left instrs.entry) }
{
    let mut goes = true;
    for numbered in instrs {
        goes = goes_on(numbered);
    }
    goes
}

/// Whether control may go on to the next block.
fn goes_past(place: u32, count: u32, instrs: Instrs<'_>) -> bool
    requires { place < count }
    ensures { result ≡ (falls_through (left instrs.entry) && not (place + 1 == count)) }
{
    falls_through(instrs) && place + 1 != count
}

/// Whether either holds.
fn either(first: bool, second: bool) -> bool
    ensures { result ≡ (first || second) }
{
    first || second
}

/// Whether a block that states no successors would have some.
fn has_implied(place: u32, count: u32, instrs: Instrs<'_>) -> bool
    requires { place < count }
    ensures { result ≡ states_successors [] (implied_successors place count (left instrs.entry)) }
{
    either(goes_past(place, count, instrs), any_branch(instrs))
}

/// Whether a block has a line of its successors.
fn states_successors(place: u32, count: u32, successors: &[u32], instrs: Instrs<'_>) -> bool
    requires { place < count }
    ensures { result ≡ states_successors successors.now (implied_successors place count (left instrs.entry)) }
{
    !successors.is_empty() || has_implied(place, count, instrs)
}

/// A block.
pub(crate) fn push_block_lines(
    registers: &Registers,
    names: &Names,
    place: u32,
    count: u32,
    block: &Block,
    instrs: Instrs<'_>,
    out: &mut Vec<u8>,
) -> Result<(), Memory>
    requires { place < count }
    ensures { OnOk result (out.new.items ≡ out.old.items ++ text_of (block_lines (kind_at registers.now) names.now place count (record { successors = block.now.successors; liveins = block.now.liveins; instrs = shown_instrs registers.now (left instrs.entry) }))) }
{
    push_head(place, out)?;
    let successors = block.successors.as_slice();
    let liveins = block.liveins.as_slice();
    let is_stated = states_successors(place, count, successors, instrs);
    push_notes(is_stated, successors, liveins, out)?;
    push_lines(registers, names, instrs, out)
}
