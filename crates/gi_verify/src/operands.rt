//! What the operands of an instruction define, read and name.

ghost use Rattle.std.specs.Prelude.{◌≡◌, OnOk, ◌++◌, option_map, find, not, nat_lt, length};
ghost use Rattle.std.specs.List.{list_any, list_all};
ghost use Rattle.gi_mir.specs.Edit.{is_def_of, is_use_of, defines, uses};
ghost use Rattle.gi_mir.specs.Formed as formed;
ghost use Rattle.gi_mir.specs.Row.{access_of};
ghost use Rattle.gi_valid.specs.Definitions as definitions;
ghost use Rattle.gi_valid.specs.Available as available;
ghost use Rattle.gi_valid.specs.Faults as faults;
ghost use Rattle.gi_mir.specs.Instrs.{left};

use gi_mir::block::Numbered;
use gi_mir::instr::Instr;
use gi_mir::instrs::Instrs;
use gi_mir::opcode::Opcode;
use gi_mir::operand::{Operand, Reg};
use gi_mir::row::Access;

/// Whether an instruction defines a register.
pub(crate) fn defines(r: u32, numbered: &Numbered) -> bool
    ensures { result ≡ defines r numbered.now }
{
    numbered.instr.defines(Reg(r))
}

/// Whether one of these instructions does.
pub(crate) fn any_defines(r: u32, instrs: Instrs<'_>) -> bool
    ensures { result ≡ list_any (defines r) (left instrs.entry) }
{
    for numbered in instrs {
        if defines(r, numbered) {
            return true;
        }
    }
    false
}

/// Whether an operand uses a register.
fn is_use_of(r: u32, operand: Operand) -> bool
    ensures { result ≡ is_use_of r operand }
{
    match operand {
        Operand::Use(q) => q.0 == r,
        _ => false,
    }
}

/// Whether an instruction uses a register.
pub(crate) fn uses(r: u32, numbered: &Numbered) -> bool
    ensures { result ≡ uses r numbered.now }
{
    numbered
        .instr
        .operands
        .as_slice()
        .iter()
        .any(|x| is_use_of(r, *x))
}

/// Whether a virtual register is defined.
fn any_def(operands: &[Operand]) -> bool
    ensures { result ≡ list_any formed.is_def operands.now }
{
    operands.iter().any(|x| matches!(*x, Operand::Def(_, _)))
}

/// Whether a physical register is defined.
fn any_physical_def(operands: &[Operand]) -> bool
    ensures { result ≡ list_any formed.is_physical_def operands.now }
{
    operands.iter().any(|x| matches!(*x, Operand::PhysDef(_)))
}

/// Whether a physical register is defined beside what is shown.
fn any_implicit_def(operands: &[Operand]) -> bool
    ensures { result ≡ list_any formed.is_implicit_def operands.now }
{
    operands
        .iter()
        .any(|x| matches!(*x, Operand::ImplicitDef(_)))
}

/// Whether a physical register is read.
fn any_physical(operands: &[Operand]) -> bool
    ensures { result ≡ list_any formed.is_physical operands.now }
{
    operands.iter().any(|x| matches!(*x, Operand::Phys(_)))
}

/// Whether an instruction defines a physical register, also beside what it shows.
fn defines_any_physical(instr: &Instr) -> bool
    ensures { result ≡ definitions.defines_any_physical instr.now }
{
    any_physical_def(instr.operands.as_slice()) || any_implicit_def(instr.operands.as_slice())
}

/// Whether an instruction defines virtual registers alone and is no call.
fn is_erasable(instr: &Instr) -> bool
    ensures { result ≡ definitions.is_erasable instr.now }
{
    any_def(instr.operands.as_slice()) && !defines_any_physical(instr) && !instr.op.is_call()
}

/// Whether an instruction is a load.
fn is_load(op: Opcode) -> bool
    ensures { result ≡ definitions.is_load (access_of op) }
{
    matches!(op.access(), Access::Load)
}

/// Whether an instruction is a copy.
fn is_copy(op: Opcode) -> bool
    ensures { result ≡ definitions.is_copy op }
{
    matches!(op, Opcode::Copy)
}

/// Whether an instruction is a copy from a physical register.
fn copies_physical(instr: &Instr) -> bool
    ensures { result ≡ definitions.copies_physical instr.now }
{
    is_copy(instr.op) && any_physical(instr.operands.as_slice())
}

/// Whether what an instruction defines depends on its operands alone.
pub(crate) fn is_pure(instr: &Instr) -> bool
    ensures { result ≡ definitions.is_pure instr.now }
{
    is_erasable(instr) && !is_load(instr.op) && !instr.op.is_phi() && !copies_physical(instr)
}
