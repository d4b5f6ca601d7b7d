//! The register that is loaded or stored, where it hasn't room for what is in memory.

ghost use Rattle.std.specs.Prelude.{◌≡◌, Some};
ghost use Rattle.gi_mir.specs.Row.{memory_of};
ghost use Rattle.gi_meaning.specs.InRow as in_row;
ghost use Rattle.gi_valid.specs.Typing as typings;

use crate::registers::type_in;
use gi_llt::Llt;
use gi_mir::entry::InMemory;
use gi_mir::function::Function;
use gi_mir::instr::Instr;
use gi_mir::operand::Operand;
use gi_mir::stage::Stage;

/// Whether a value may be in memory as the other type: at most as wide, and a pointer as a pointer.
fn holds(value: Llt, in_memory: Llt) -> bool
    ensures { result ≡ in_row.holds value in_memory }
{
    match (value, in_memory) {
        (Llt::Scalar(value), Llt::Scalar(in_memory)) => in_memory <= value,
        (Llt::Pointer, Llt::Pointer) => true,
        _ => false,
    }
}

/// Whether a number is wider than the other type.
fn holds_more(value: Llt, in_memory: Llt) -> bool
    ensures { result ≡ in_row.holds_more value in_memory }
{
    match (value, in_memory) {
        (Llt::Scalar(value), Llt::Scalar(in_memory)) => in_memory < value,
        _ => false,
    }
}

/// Whether a type has room for the other one, by an opcode's row.
fn has_room(memory: InMemory, value: Llt, in_memory: Llt) -> bool
    ensures { result ≡ in_row.has_room memory value in_memory }
{
    match memory {
        InMemory::Value => holds(value, in_memory),
        InMemory::Extended => holds_more(value, in_memory),
        InMemory::Nothing | InMemory::Bits(_) => true,
    }
}

/// Whether a type has room, where it is known.
fn is_roomy(memory: InMemory, value: Option<Llt>, in_memory: Llt) -> bool
    ensures { result ≡ typings.is_roomy memory value in_memory }
{
    match value {
        Some(value) => has_room(memory, value, in_memory),
        None => true,
    }
}

/// The register that is loaded, or else stored, as the first of these operands.
fn value_in(operands: &[Operand]) -> Option<u32>
    ensures { result ≡ typings.value_in operands.now }
{
    match operands {
        [Operand::Def(r, _), ..] | [Operand::Use(r), ..] => Some(r.0),
        _ => None,
    }
}

/// This register, where it hasn't room.
fn unless_roomy(
    stage: Stage,
    function: &Function,
    memory: InMemory,
    in_memory: Llt,
    value: u32,
) -> Option<u32>
    ensures { result ≡ typings.unless_roomy (typings.type_in (typings.phase_of stage) function.now) memory in_memory (Some value) }
{
    if is_roomy(memory, type_in(stage, function, value), in_memory) {
        None
    } else {
        Some(value)
    }
}

/// The register that is loaded or stored, where it hasn't room for what is in memory.
pub(crate) fn roomless(stage: Stage, function: &Function, instr: &Instr) -> Option<u32>
    ensures { result ≡ typings.roomless (typings.type_in (typings.phase_of stage) function.now) (memory_of (instr.now).op) (instr.now).mem (instr.now).operands }
{
    let in_memory = instr.mem?.ty;
    let value = value_in(instr.operands.as_slice())?;
    unless_roomy(stage, function, instr.op.memory(), in_memory, value)
}
