//! An instruction, written at the end of a text.

ghost use Rattle.std.specs.Prelude.{◌≡◌, ◌≤◌, ◌++◌, ◌∷◌, [], true, false, not, decimal, length, position, take, drop, if◌then◌else◌, OnOk};
ghost use Rattle.std.specs.List.{list_all};
ghost use Rattle.gi_llt.specs.Tokens.{piece_bytes};
ghost use Rattle.gi_mir.specs.Numbering.{number_in};
ghost use Rattle.gi_spelling.specs.Printed.{kind_pieces, use_pieces, operand_pieces, is_definition, definitions_of, sources_of, source_forms, first_row, is_typed_form, is_typed_by, forms_after, source_pieces, sources_pieces, definition_pieces, defined_pieces, instr_pieces};
ghost use Rattle.gi_mir.specs.Registers.{type_of_kind};
ghost use Rattle.gi_mir.specs.Row.{rows_of};
ghost use Rattle.gi_mir_print.specs.Shown.{is_definition_form, kind_at, shown_operand, shown_operands, shown_instr};

use crate::pieces::{
    push, push_block, push_constant, push_flags, push_frame, push_global, push_implicit_def,
    push_implicit_use, push_int, push_kind, push_memory, push_physical, push_predicate,
    push_register, push_routine, push_saved_mask, push_shown_type,
};
use crate::registers::Registers;
use gi_llt::{Llt, Memory};
use gi_mir::instr::Instr;
use gi_mir::names::Names;
use gi_mir::opcode::Opcode;
use gi_mir::operand::{Kind, Operand, Reg};
use gi_mir::row::Form;

/// The type of a register of this kind, which one of class `gpr` has not.
fn type_of(kind: Kind) -> Option<Llt>
    ensures { result ≡ type_of_kind kind }
{
    match kind {
        Kind::Generic(ty) => Some(ty),
        Kind::Banked(ty) => Some(ty),
        Kind::Class => None,
    }
}

/// The type that a use shows, if it shows one.
fn type_shown(registers: &Registers, is_typed: bool, reg: Reg) -> Option<Llt>
    ensures { result ≡ (if is_typed then type_of_kind (kind_at registers.now (number_in registers.now.order reg.0)) else None) }
{
    if is_typed {
        type_of(registers.kind(reg))
    } else {
        None
    }
}

/// `%1`, `%1(s32)`
fn push_use(
    registers: &Registers,
    is_typed: bool,
    reg: Reg,
    out: &mut Vec<u8>,
) -> Result<(), Memory>
    ensures { OnOk result (out.new.items ≡ out.old.items ++ piece_bytes (use_pieces (number_in registers.now.order reg.0) (if is_typed then type_of_kind (kind_at registers.now (number_in registers.now.order reg.0)) else None))) }
{
    push_register(registers.number(reg), out)?;
    push_shown_type(type_shown(registers, is_typed, reg), out)
}

/// `%1:_(s32)`
fn push_def(registers: &Registers, reg: Reg, kind: Kind, out: &mut Vec<u8>) -> Result<(), Memory>
    ensures { OnOk result (out.new.items ≡ out.old.items ++ (37 ∷ decimal (number_in registers.now.order reg.0) ++ piece_bytes (kind_pieces kind))) }
{
    push_register(registers.number(reg), out)?;
    push_kind(kind, out)
}

/// An operand, with its type where it shows one.
fn push_operand(
    registers: &Registers,
    names: &Names,
    is_typed: bool,
    operand: Operand,
    out: &mut Vec<u8>,
) -> Result<(), Memory>
    ensures { OnOk result (out.new.items ≡ out.old.items ++ piece_bytes (operand_pieces (kind_at registers.now) names.now is_typed (shown_operand registers.now operand))) }
{
    match operand {
        Operand::Def(reg, kind) => push_def(registers, reg, kind, out),
        Operand::Use(reg) => push_use(registers, is_typed, reg, out),
        Operand::Phys(number) => push_physical(number, out),
        Operand::PhysDef(number) => push_physical(number, out),
        Operand::ImplicitUse(number) => push_implicit_use(number, out),
        Operand::ImplicitDef(number) => push_implicit_def(number, out),
        Operand::Int(value) => push_int(value, out),
        Operand::Constant(bits, value) => push_constant(bits, value, out),
        Operand::Block(place) => push_block(place, out),
        Operand::Predicate(pred) => push_predicate(pred, out),
        Operand::Frame(place) => push_frame(place, out),
        Operand::Global(flag, number) => push_global(flag, names, number, out),
        Operand::Routine(flag, place) => push_routine(flag, place, out),
        Operand::SavedMask => push_saved_mask(out),
    }
}

/// A register that is defined.
fn push_definition(registers: &Registers, operand: Operand, out: &mut Vec<u8>) -> Result<(), Memory>
    requires { is_definition operand ≡ true }
    ensures { OnOk result (out.new.items ≡ out.old.items ++ piece_bytes (operand_pieces (λ reg. Kind.Class) [] false (shown_operand registers.now operand))) }
{
    match operand {
        Operand::Def(reg, kind) => push_def(registers, reg, kind, out),
        Operand::PhysDef(number) => push_physical(number, out),
        _ => Ok(()),
    }
}

/// Whether an operand stands before `=`.
fn is_definition(operand: Operand) -> bool
    ensures { result ≡ is_definition operand }
{
    matches!(operand, Operand::Def(_, _) | Operand::PhysDef(_))
}

/// The place of the first operand that is no definition.
fn definition_end(operands: &[Operand]) -> Option<usize>
    ensures { result ≡ position (λ operand. not (is_definition operand)) operands.now }
{
    operands.iter().position(|operand| !is_definition(*operand))
}

/// How many definitions the operands begin with.
fn definition_count(operands: &[Operand]) -> usize
    ensures within { result ≤ length operands.now }
    ensures definitions { take result operands.now ≡ definitions_of operands.now }
    ensures sources { drop result operands.now ≡ sources_of operands.now }
{
    definition_end(operands).unwrap_or(operands.len())
}

/// The place of the first form that is not one of a definition.
fn form_end(forms: &[Form]) -> Option<usize>
    ensures { result ≡ position (λ form. not (is_definition_form form)) forms.now }
{
    forms.iter().position(|form| !is_definition_form(*form))
}

/// How many forms of definitions the forms begin with.
fn form_count(forms: &[Form]) -> usize
    ensures within { result ≤ length forms.now }
    ensures sources { drop result forms.now ≡ source_forms forms.now }
{
    form_end(forms).unwrap_or(forms.len())
}

/// Whether a form is one of a definition.
fn is_definition_form(form: Form) -> bool
    ensures { result ≡ is_definition_form form }
{
    matches!(form, Form::Def | Form::PhysicalDef | Form::Results)
}

/// The operands before `=`.
fn definitions(operands: &[Operand]) -> &[Operand]
    ensures value { result.now ≡ definitions_of operands.now }
    ensures all { list_all is_definition result.now ≡ true }
{
    let count = definition_count(operands);
    &operands[..count]
}

/// The operands after the opcode.
fn sources(operands: &[Operand]) -> &[Operand]
    ensures { result.now ≡ sources_of operands.now }
{
    let count = definition_count(operands);
    &operands[count..]
}

/// The forms of what is no definition.
fn source_forms(forms: &[Form]) -> &[Form]
    ensures { result.now ≡ source_forms forms.now }
{
    let count = form_count(forms);
    &forms[count..]
}

/// The row that says which uses show a type.
fn first_row(op: Opcode) -> &'static [Form]
    ensures { result.now ≡ first_row (rows_of op) }
{
    match op.rows().first() {
        Some(row) => *row,
        None => &[],
    }
}

/// Whether an operand of this form shows its type.
fn is_typed_form(form: Form) -> bool
    ensures { result ≡ is_typed_form form }
{
    matches!(
        form,
        Form::TypedUse | Form::Parts | Form::Entry | Form::EntryBlock
    )
}

/// Whether an operand with these forms before it shows its type.
fn is_typed_by(forms: &[Form]) -> bool
    ensures { result ≡ is_typed_by forms.now }
{
    match forms {
        [form, ..] => is_typed_form(*form),
        [] => false,
    }
}

/// The forms after an operand: the last one goes on.
fn forms_after(forms: &[Form]) -> &[Form]
    ensures { result.now ≡ forms_after forms.now }
{
    if forms.len() < 2 { forms } else { &forms[1..] }
}

/// `%0:_(s32), %1:_(s1) = `
fn push_definitions(
    registers: &Registers,
    operands: &[Operand],
    out: &mut Vec<u8>,
) -> Result<(), Memory>
    requires { list_all is_definition operands.now ≡ true }
    ensures { OnOk result (out.new.items ≡ out.old.items ++ piece_bytes (defined_pieces (definition_pieces (shown_operands registers.now operands.now)))) }
{
    let mut lead: &[u8] = b"";
    for operand in operands {
        push(lead, out)?;
        push_definition(registers, *operand, out)?;
        lead = b", ";
    }
    if operands.is_empty() {
        Ok(())
    } else {
        push(b" = ", out)
    }
}

/// ` %0, %1`
fn push_sources(
    registers: &Registers,
    names: &Names,
    forms: &[Form],
    operands: &[Operand],
    out: &mut Vec<u8>,
) -> Result<(), Memory>
    ensures { OnOk result (out.new.items ≡ out.old.items ++ piece_bytes (sources_pieces (source_pieces (kind_at registers.now) names.now forms.now (shown_operands registers.now operands.now)))) }
{
    let mut lead: &[u8] = b" ";
    let mut left = forms;
    for operand in operands {
        push(lead, out)?;
        push_operand(registers, names, is_typed_by(left), *operand, out)?;
        lead = b", ";
        left = forms_after(left);
    }
    Ok(())
}

/// The definitions among the operands of an instruction.
fn push_all_definitions(
    registers: &Registers,
    operands: &[Operand],
    out: &mut Vec<u8>,
) -> Result<(), Memory>
    ensures { OnOk result (out.new.items ≡ out.old.items ++ piece_bytes (defined_pieces (definition_pieces (definitions_of (shown_operands registers.now operands.now))))) }
{
    push_definitions(registers, definitions(operands), out)
}

/// The other operands of an instruction, each with its type where its form shows one.
fn push_all_sources(
    registers: &Registers,
    names: &Names,
    op: Opcode,
    operands: &[Operand],
    out: &mut Vec<u8>,
) -> Result<(), Memory>
    ensures { OnOk result (out.new.items ≡ out.old.items ++ piece_bytes (sources_pieces (source_pieces (kind_at registers.now) names.now (source_forms (first_row (rows_of op))) (sources_of (shown_operands registers.now operands.now))))) }
{
    let forms = source_forms(first_row(op));
    push_sources(registers, names, forms, sources(operands), out)
}

/// An instruction.
pub(crate) fn push_instr(
    registers: &Registers,
    names: &Names,
    instr: &Instr,
    out: &mut Vec<u8>,
) -> Result<(), Memory>
    ensures { OnOk result (out.new.items ≡ out.old.items ++ piece_bytes (instr_pieces (kind_at registers.now) names.now (shown_instr registers.now instr.now))) }
{
    let operands = instr.operands.as_slice();
    push_all_definitions(registers, operands, out)?;
    push_flags(instr.flags, out)?;
    push(instr.op.word().as_bytes(), out)?;
    push_all_sources(registers, names, instr.op, operands, out)?;
    push_memory(instr.mem, out)
}
