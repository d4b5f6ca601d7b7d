//! What passes the limits of what is handled.

ghost use Rattle.std.specs.Prelude.{◌≡◌, ◌≤◌, ◌<◌, ◌^◌, ◌⊎◌, ℕ, ◌+◌, None, Some, flat_map, length, if◌then◌else◌, IfOk};
ghost use Rattle.std.specs.List.{list_any};
ghost use Rattle.gi_mir.specs.Instrs.{left};
ghost use Rattle.gi_mir.specs.Registers.{type_of_kind};
ghost use Rattle.gi_mir.specs.Row.{rows_of};
ghost use Rattle.gi_mir.specs.Types.{is_any};
ghost use Rattle.gi_registers.specs.Noted.{kind_or_class};
ghost use Rattle.gi_spelling.specs.Printed.{definitions_of, first_row, is_definition, sources_of, forms_after, is_typed_by, is_typed_form, source_forms};
ghost use Rattle.gi_mir_read.specs.Sizes.{above, access_faults, blocks_faults, count_after, count_faults, counted, first_line, forms_behind, function_faults, functions_faults, head_faults, line_of, low_faults, is_before, is_copy, is_definition_form, is_extension, is_physical, is_physical_copy, is_right_result, is_right_source, instr_faults, instrs_faults, is_word, sooner_fault, lowest_after, memory_faults, number_faults, numbers_faults, numbers_of, object_faults, objects_faults, operand_faults, operands_faults, parts_of, register_faults, result_type, results_after, shown_faults, size_fault, sources_after, told_number, type_faults, width_unless};

use gi_llt::{Llt, Memory, Target, width};
use gi_mir::accepted::{
    is_constant_type, is_in_register, is_memory_type, is_result_type, is_source_type,
};
use gi_mir::block::Numbered;
use gi_mir::function::Function;
use gi_mir::instr::Instr;
use gi_mir::instrs::Instrs;
use gi_mir::module::Module;
use gi_mir::opcode::Opcode;
use gi_mir::operand::{Kind, MemOp, Operand, Reg, StackObject};
use gi_mir::row::Form;
use gi_mir::types::{is_any, is_pointer, is_register, scalar_bits};
use gi_registers::kinds::RegisterKinds;
use gi_text::SizeError;
use std::alloc::Global;

/// A fault of a line: its line, its place among the kinds of faults, and what is told.
#[derive(Clone, Copy, Debug, PartialEq, Eq)]
pub(crate) struct Fault {
    pub line: u32,
    pub rank: u8,
    pub error: SizeError,
}

/// Whether one fault is told before another.
fn is_before(one: Fault, other: Fault) -> bool
    ensures { result ≡ is_before one other }
{
    one.line < other.line || one.line == other.line && one.rank < other.rank
}

/// The first of two faults that is told.
fn sooner_fault(lowest: Option<Fault>, fault: Fault) -> Option<Fault>
    ensures { result ≡ sooner_fault lowest fault }
{
    match lowest {
        Some(first) => {
            if is_before(fault, first) {
                Some(fault)
            } else {
                Some(first)
            }
        }
        None => Some(fault),
    }
}

/// The lowest, where a number may pass its limit.
fn with_limit(lowest: Option<Fault>, line: u32, rank: u8, limit: u32, number: u64) -> Option<Fault>
    ensures { result ≡ lowest_after lowest (above line rank limit number) }
{
    if u64::from(limit) < number {
        sooner_fault(
            lowest,
            Fault {
                line,
                rank,
                error: SizeError::Limit {
                    line,
                    number: u64::from(limit),
                },
            },
        )
    } else {
        lowest
    }
}

/// The lowest, where a width may be wrong.
fn with_width(lowest: Option<Fault>, is_right: bool, line: u32, bits: u16) -> Option<Fault>
    ensures { result ≡ lowest_after lowest (width_unless is_right line bits) }
{
    if is_right {
        lowest
    } else {
        sooner_fault(
            lowest,
            Fault {
                line,
                rank: 0,
                error: SizeError::Width { line, bits },
            },
        )
    }
}

/// The type of a register of this kind, which one of class `gpr` has not.
fn type_of(kind: Kind) -> Option<Llt>
    ensures { result ≡ type_of_kind kind }
{
    match kind {
        Kind::Generic(ty) => Some(ty),
        Kind::Banked(ty) => Some(ty),
        Kind::Class => None,
    }
}

/// Whether an operand is a physical register that is shown.
fn is_physical(operand: Operand) -> bool
    ensures { result ≡ is_physical operand }
{
    matches!(operand, Operand::Phys(_) | Operand::PhysDef(_))
}

/// Whether one of these operands is a physical register.
fn any_physical(operands: &[Operand]) -> bool
    ensures { result ≡ list_any is_physical operands.now }
{
    operands.iter().any(|operand| is_physical(*operand))
}

/// Whether an opcode copies a register.
fn is_copy(op: Opcode) -> bool
    ensures { result ≡ is_copy op }
{
    matches!(op, Opcode::Copy)
}

/// Whether an opcode extends the sign within a register.
fn is_extension(op: Opcode) -> bool
    ensures { result ≡ is_extension op }
{
    matches!(op, Opcode::GenericSignExtendInRegister)
}

/// Whether an instruction copies between a virtual and a physical register.
fn is_physical_copy(instr: &Instr) -> bool
    ensures { result ≡ is_physical_copy instr.now }
{
    is_copy(instr.op) && any_physical(instr.operands.as_slice())
}

/// A pointer, or a scalar of a register's width.
fn is_word(x: u16, ty: Llt) -> bool
    requires { x ≤ 64 }
    ensures { result ≡ is_word x ty }
{
    is_pointer(ty) || is_register(x, ty)
}

/// Whether a type may stand at a place among the results.
fn is_right_result(target: Target, instr: &Instr, place: usize, ty: Llt) -> bool
    requires { (target.xlen ≡ 32) ⊎ (target.xlen ≡ 64) }
    ensures { result ≡ is_right_result target.xlen instr.now place ty }
{
    if is_physical_copy(instr) {
        is_word(target.xlen, ty)
    } else {
        is_result_type(target, instr.op, place, ty)
    }
}

/// Whether a type may stand at a place among the virtual registers that are read.
fn is_right_source(target: Target, instr: &Instr, place: usize, ty: Llt) -> bool
    requires { (target.xlen ≡ 32) ⊎ (target.xlen ≡ 64) }
    ensures { result ≡ is_right_source target.xlen instr.now place ty }
{
    if is_physical_copy(instr) {
        is_word(target.xlen, ty)
    } else {
        is_source_type(target, instr.op, place, ty)
    }
}

/// The lowest, where a result may be of a wrong type.
fn with_result(
    lowest: Option<Fault>,
    target: Target,
    instr: &Instr,
    place: usize,
    ty: Option<Llt>,
) -> Option<Fault>
    requires { (target.xlen ≡ 32) ⊎ (target.xlen ≡ 64) }
    ensures { result ≡ lowest_after lowest (type_faults target.xlen instr.now.line (is_right_result target.xlen instr.now place) ty) }
{
    match ty {
        Some(ty) => {
            let is_right = is_any(target.xlen, ty) && is_right_result(target, instr, place, ty);
            with_width(lowest, is_right, instr.line, width(ty, target))
        }
        None => lowest,
    }
}

/// The lowest, where a register that is read may be shown with a wrong type.
fn with_source(
    lowest: Option<Fault>,
    target: Target,
    instr: &Instr,
    place: usize,
    ty: Option<Llt>,
) -> Option<Fault>
    requires { (target.xlen ≡ 32) ⊎ (target.xlen ≡ 64) }
    ensures { result ≡ lowest_after lowest (type_faults target.xlen instr.now.line (is_right_source target.xlen instr.now place) ty) }
{
    match ty {
        Some(ty) => {
            let is_right = is_any(target.xlen, ty) && is_right_source(target, instr, place, ty);
            with_width(lowest, is_right, instr.line, width(ty, target))
        }
        None => lowest,
    }
}

/// The type of the first result, which one of class `gpr` has not.
fn result_type(operands: &[Operand]) -> Option<Llt>
    ensures { result ≡ result_type operands.now }
{
    match operands {
        [Operand::Def(_, kind), ..] => type_of(*kind),
        _ => None,
    }
}

/// A number as a width is told.
fn told_number(k: i128) -> u16
    ensures { result ≡ told_number k }
{
    if k < 0 {
        0
    } else if k < 65535 {
        k as u16
    } else {
        65535
    }
}

/// The lowest, where a number of low bits may fill a result of this type, or may not be there.
fn with_low(
    lowest: Option<Fault>,
    target: Target,
    line: u32,
    k: i128,
    ty: Option<Llt>,
) -> Option<Fault>
    requires { (target.xlen ≡ 32) ⊎ (target.xlen ≡ 64) }
    ensures { result ≡ lowest_after lowest (low_faults target.xlen line k ty) }
{
    match ty {
        Some(ty) => {
            let is_right = is_in_register(target, scalar_bits(ty), k);
            with_width(lowest, is_right, line, told_number(k))
        }
        None => lowest,
    }
}

/// The lowest, where a number may be no width to extend from.
fn with_number(lowest: Option<Fault>, target: Target, instr: &Instr, k: i128) -> Option<Fault>
    requires { (target.xlen ≡ 32) ⊎ (target.xlen ≡ 64) }
    ensures { result ≡ lowest_after lowest (number_faults target.xlen instr.now k) }
{
    if is_extension(instr.op) {
        let ty = result_type(instr.operands.as_slice());
        with_low(lowest, target, instr.line, k, ty)
    } else {
        lowest
    }
}

/// The lowest, where the memory operand of an instruction may be wrong.
fn with_memory(
    lowest: Option<Fault>,
    target: Target,
    instr: &Instr,
    memory: Option<MemOp>,
) -> Option<Fault>
    requires { (target.xlen ≡ 32) ⊎ (target.xlen ≡ 64) }
    ensures { result ≡ lowest_after lowest (memory_faults target.xlen instr.now memory) }
{
    match memory {
        Some(memory) => {
            let is_right = is_any(target.xlen, memory.ty)
                && is_memory_type(target, instr.op, memory.ty);
            let lowest = with_width(lowest, is_right, instr.line, width(memory.ty, target));
            with_limit(lowest, instr.line, 8, 4096, memory.align)
        }
        None => lowest,
    }
}

/// The lowest, where the number of a register may be too great.
fn with_register(lowest: Option<Fault>, line: u32, operand: Operand) -> Option<Fault>
    ensures { result ≡ lowest_after lowest (register_faults line operand) }
{
    match operand {
        Operand::Def(reg, _) => with_limit(lowest, line, 4, 4_194_303, u64::from(reg.0)),
        Operand::Use(reg) => with_limit(lowest, line, 4, 4_194_303, u64::from(reg.0)),
        _ => lowest,
    }
}

/// Whether a form is one of a definition.
fn is_definition_form(form: Form) -> bool
    ensures { result ≡ is_definition_form form }
{
    matches!(form, Form::Def | Form::PhysicalDef | Form::Results)
}

/// The forms of what is no definition.
fn source_forms(forms: &[Form]) -> &[Form]
    ensures { result.now ≡ source_forms forms.now }
{
    for (place, form) in forms.iter().enumerate() {
        if !is_definition_form(*form) {
            return &forms[place..];
        }
    }
    &[]
}

/// The row that says which uses show a type.
fn first_row(op: Opcode) -> &'static [Form]
    ensures { result.now ≡ first_row (rows_of op) }
{
    match op.rows().first() {
        Some(row) => *row,
        None => &[],
    }
}

/// Whether an operand of this form shows its type.
fn is_typed_form(form: Form) -> bool
    ensures { result ≡ is_typed_form form }
{
    matches!(
        form,
        Form::TypedUse | Form::Parts | Form::Entry | Form::EntryBlock
    )
}

/// Whether an operand with these forms before it shows its type.
fn is_typed_by(forms: &[Form]) -> bool
    ensures { result ≡ is_typed_by forms.now }
{
    match forms {
        [form, ..] => is_typed_form(*form),
        [] => false,
    }
}

/// The forms after an operand: the last one goes on.
fn forms_after(forms: &[Form]) -> &[Form]
    ensures { result.now ≡ forms_after forms.now }
{
    if forms.len() < 2 { forms } else { &forms[1..] }
}

/// The forms behind an operand.
fn forms_behind(forms: &[Form], operand: Operand) -> &[Form]
    ensures { result.now ≡ forms_behind forms.now operand }
{
    match operand {
        Operand::Def(_, _) | Operand::PhysDef(_) => forms,
        _ => forms_after(forms),
    }
}

/// How many results stand behind an operand.
fn results_after(results: usize, operand: Operand) -> usize
    requires { results < 2 ^ 63 }
    ensures { result ≡ results_after results operand }
{
    match operand {
        Operand::Def(_, _) => results + 1,
        _ => results,
    }
}

/// How many virtual registers that are read stand behind an operand.
fn sources_after(sources: usize, operand: Operand) -> usize
    requires { sources < 2 ^ 63 }
    ensures { result ≡ sources_after sources operand }
{
    match operand {
        Operand::Use(_) => sources + 1,
        _ => sources,
    }
}

/// The type that a use shows, if it shows one.
fn type_shown(kinds: &RegisterKinds, forms: &[Form], reg: Reg) -> Option<Llt>
    ensures { result ≡ (if is_typed_by forms.now then type_of_kind (kind_or_class kinds.now reg.0) else None) }
{
    if is_typed_by(forms) {
        type_of(kinds.kind_or_class(reg))
    } else {
        None
    }
}

/// Where an operand stands: how many results and how many other virtual registers stand before it, and the
/// forms from it on.
#[derive(Clone, Copy)]
struct Standing<'a> {
    results: usize,
    sources: usize,
    forms: &'a [Form],
}

/// The lowest, where an operand may show what is wrong.
fn with_operand(
    lowest: Option<Fault>,
    target: Target,
    kinds: &RegisterKinds,
    instr: &Instr,
    standing: Standing,
    operand: Operand,
) -> Option<Fault>
    requires { (target.xlen ≡ 32) ⊎ (target.xlen ≡ 64) }
    ensures { result ≡ lowest_after lowest (operand_faults target.xlen (kind_or_class kinds.now) instr.now standing.entry.results standing.entry.sources standing.entry.forms.now operand) }
{
    match operand {
        Operand::Def(_, kind) => {
            with_result(lowest, target, instr, standing.results, type_of(kind))
        }
        Operand::Use(reg) => {
            let ty = type_shown(kinds, standing.forms, reg);
            with_source(lowest, target, instr, standing.sources, ty)
        }
        Operand::Constant(bits, _) => {
            let is_right = is_constant_type(target, instr.op, bits);
            with_width(lowest, is_right, instr.line, bits)
        }
        Operand::Int(k) => with_number(lowest, target, instr, k),
        _ => lowest,
    }
}

/// The lowest, where operands may show what is wrong, by the forms of those that are no definition.
fn with_operands(
    lowest: Option<Fault>,
    target: Target,
    kinds: &RegisterKinds,
    instr: &Instr,
    forms: &[Form],
    operands: &[Operand],
) -> Option<Fault>
    requires { (target.xlen ≡ 32) ⊎ (target.xlen ≡ 64) }
    ensures { result ≡ lowest_after lowest (operands_faults target.xlen (kind_or_class kinds.now) instr.now 0 0 forms.now operands.now) }
{
    let mut lowest = lowest;
    let mut results = 0;
    let mut sources = 0;
    let mut forms = forms;
    for operand in operands {
        let standing = Standing {
            results,
            sources,
            forms,
        };
        lowest = with_operand(lowest, target, kinds, instr, standing, *operand);
        results = results_after(results, *operand);
        sources = sources_after(sources, *operand);
        forms = forms_behind(forms, *operand);
    }
    lowest
}

/// The lowest, where the number of a register may be too great.
fn with_registers(lowest: Option<Fault>, line: u32, operands: &[Operand]) -> Option<Fault>
    ensures { result ≡ lowest_after lowest (flat_map (register_faults line) operands.now) }
{
    let mut lowest = lowest;
    for operand in operands {
        lowest = with_register(lowest, line, *operand);
    }
    lowest
}

/// The operands so far and so many more, counted to one above the limit.
fn count_after(before: u32, count: usize) -> u32
    requires { before ≤ 262145 }
    ensures after { result ≡ count_after before count }
    ensures within { result ≤ 262145 }
{
    if count < 262_145 {
        (before + count as u32).min(262_145)
    } else {
        262_145
    }
}

/// The lowest, where a function may pass the limit of its operands at an instruction.
fn with_count(lowest: Option<Fault>, line: u32, before: u32, count: usize) -> Option<Fault>
    requires { before ≤ 262145 }
    ensures { result ≡ lowest_after lowest (count_faults line before count) }
{
    if before <= 262_144 {
        with_limit(
            lowest,
            line,
            1,
            262_144,
            u64::from(count_after(before, count)),
        )
    } else {
        lowest
    }
}

/// Whether an operand stands before `=`.
fn is_definition(operand: Operand) -> bool
    ensures { result ≡ is_definition operand }
{
    matches!(operand, Operand::Def(_, _) | Operand::PhysDef(_))
}

/// How many definitions the operands begin with.
fn definition_count(operands: &[Operand]) -> usize
    ensures definitions { result ≡ length (definitions_of operands.now) }
    ensures sources { length operands.now ≡ result + length (sources_of operands.now) }
{
    for (place, operand) in operands.iter().enumerate() {
        if !is_definition(*operand) {
            return place;
        }
    }
    operands.len()
}

/// How many parts a merge or an unmerge has.
fn parts_of(op: Opcode, operands: &[Operand]) -> usize
    ensures { result ≡ parts_of op operands.now }
{
    match op {
        Opcode::GenericMergeValues => operands.len() - definition_count(operands),
        Opcode::GenericUnmergeValues => definition_count(operands),
        _ => 0,
    }
}

/// The lowest, where an instruction may show what is wrong.
fn with_shown(
    lowest: Option<Fault>,
    target: Target,
    kinds: &RegisterKinds,
    instr: &Instr,
) -> Option<Fault>
    requires { (target.xlen ≡ 32) ⊎ (target.xlen ≡ 64) }
    ensures { result ≡ lowest_after lowest (shown_faults target.xlen (kind_or_class kinds.now) instr.now) }
{
    let forms = source_forms(first_row(instr.op));
    with_operands(
        lowest,
        target,
        kinds,
        instr,
        forms,
        instr.operands.as_slice(),
    )
}

/// The lowest, where an instruction may have a wrong memory operand.
fn with_access(lowest: Option<Fault>, target: Target, instr: &Instr) -> Option<Fault>
    requires { (target.xlen ≡ 32) ⊎ (target.xlen ≡ 64) }
    ensures { result ≡ lowest_after lowest (access_faults target.xlen instr.now) }
{
    with_memory(lowest, target, instr, instr.mem)
}

/// The lowest, where operands may be too many or have too great numbers.
fn with_numbers_of(
    lowest: Option<Fault>,
    before: u32,
    line: u32,
    op: Opcode,
    operands: &[Operand],
) -> Option<Fault>
    requires { before ≤ 262145 }
    ensures { result ≡ lowest_after lowest (numbers_of before line op operands.now) }
{
    let in_count = with_count(lowest, line, before, operands.len());
    let in_registers = with_registers(in_count, line, operands);
    with_limit(in_registers, line, 5, 16, parts_of(op, operands) as u64)
}

/// The same for those of an instruction.
fn with_numbers(lowest: Option<Fault>, before: u32, instr: &Instr) -> Option<Fault>
    requires { before ≤ 262145 }
    ensures { result ≡ lowest_after lowest (numbers_faults before instr.now) }
{
    with_numbers_of(
        lowest,
        before,
        instr.line,
        instr.op,
        instr.operands.as_slice(),
    )
}

/// The lowest, where an instruction may have a fault, with so many operands before it in its function.
fn with_instr(
    lowest: Option<Fault>,
    target: Target,
    kinds: &RegisterKinds,
    before: u32,
    instr: &Instr,
) -> Option<Fault>
    requires target { (target.xlen ≡ 32) ⊎ (target.xlen ≡ 64) }
    requires before { before ≤ 262145 }
    ensures { result ≡ lowest_after lowest (instr_faults target.xlen (kind_or_class kinds.now) before instr.now) }
{
    let shown = with_shown(lowest, target, kinds, instr);
    let in_memory = with_access(shown, target, instr);
    with_numbers(in_memory, before, instr)
}

/// The lowest, where an instruction may have a fault, and how many operands stand behind it.
fn with_numbered(
    lowest: Option<Fault>,
    target: Target,
    kinds: &RegisterKinds,
    before: u32,
    numbered: &Numbered,
) -> (Option<Fault>, u32)
    requires target { (target.xlen ≡ 32) ⊎ (target.xlen ≡ 64) }
    requires before { before ≤ 262145 }
    ensures lowest { result.0 ≡ lowest_after lowest (instr_faults target.xlen (kind_or_class kinds.now) before numbered.now.1) }
    ensures counted { result.1 ≡ count_after before (length numbered.now.1.operands) }
    ensures within { result.1 ≤ 262145 }
{
    let lowest = with_instr(lowest, target, kinds, before, &numbered.instr);
    (lowest, count_after(before, numbered.instr.operands.len()))
}

/// The lowest, where instructions may have faults, and how many operands stand behind them.
fn with_instrs(
    lowest: Option<Fault>,
    target: Target,
    kinds: &RegisterKinds,
    before: u32,
    instrs: Instrs<'_>,
) -> (Option<Fault>, u32)
    requires target { (target.xlen ≡ 32) ⊎ (target.xlen ≡ 64) }
    requires before { before ≤ 262145 }
    ensures lowest { result.0 ≡ lowest_after lowest (instrs_faults target.xlen (kind_or_class kinds.now) before (left instrs.entry)) }
    ensures counted { result.1 ≡ counted before (left instrs.entry) }
    ensures within { result.1 ≤ 262145 }
{
    let mut lowest = lowest;
    let mut count = before;
    for instr in instrs {
        (lowest, count) = with_numbered(lowest, target, kinds, count, instr);
    }
    (lowest, count)
}

/// The lowest, where the blocks of a function may have faults.
fn with_blocks(
    lowest: Option<Fault>,
    target: Target,
    kinds: &RegisterKinds,
    f: &Function,
) -> Option<Fault>
    requires target { (target.xlen ≡ 32) ⊎ (target.xlen ≡ 64) }
    ensures { result ≡ lowest_after lowest (blocks_faults target.xlen (kind_or_class kinds.now) 0 f.now.blocks) }
{
    let mut lowest = lowest;
    let mut count = 0;
    for block in 0..f.block_count() {
        (lowest, count) = with_instrs(lowest, target, kinds, count, f.instrs(block));
    }
    lowest
}

/// The line of the first of some instructions.
fn line_of(instrs: Instrs<'_>) -> Option<u32>
    ensures { result ≡ line_of (left instrs.entry) }
{
    let mut rest = instrs;
    rest.next().map(|first| first.instr.line)
}

/// The line of the first instruction of a function in layout, and 1 without one.
fn first_line(f: &Function) -> u32
    ensures { result ≡ first_line f.now.blocks }
{
    for block in 0..f.block_count() {
        if let Some(line) = line_of(f.instrs(block)) {
            return line;
        }
    }
    1
}

/// The lowest, where a stack object may pass its limits.
fn with_object(lowest: Option<Fault>, line: u32, object: StackObject) -> Option<Fault>
    ensures { result ≡ lowest_after lowest (object_faults line object) }
{
    let in_size = with_limit(lowest, line, 6, 1_048_576, object.size);
    with_limit(in_size, line, 7, 4096, object.align)
}

/// The lowest, where stack objects may pass their limits.
fn with_objects(lowest: Option<Fault>, line: u32, objects: &[StackObject]) -> Option<Fault>
    ensures { result ≡ lowest_after lowest (objects_faults line objects.now) }
{
    let mut lowest = lowest;
    for object in objects {
        lowest = with_object(lowest, line, *object);
    }
    lowest
}

/// The lowest, where the counts of a function may pass their limits, with so many functions before it.
fn with_head(lowest: Option<Fault>, line: u32, place: usize, f: &Function) -> Option<Fault>
    requires { place < 2 ^ 63 }
    ensures { result ≡ lowest_after lowest (head_faults line place f.now) }
{
    let in_blocks = with_limit(lowest, line, 2, 65_535, u64::from(f.block_count()));
    let in_place = with_limit(in_blocks, line, 3, 65_535, place as u64 + 1);
    with_objects(in_place, line, f.stack())
}

/// The lowest, where a function may have faults, with so many functions before it.
fn with_function(
    lowest: Option<Fault>,
    alloc: Global,
    target: Target,
    place: usize,
    f: &Function,
) -> Result<Option<Fault>, Memory>
    requires target { (target.xlen ≡ 32) ⊎ (target.xlen ≡ 64) }
    requires place { place < 2 ^ 63 }
    ensures { IfOk result (λ found. found ≡ lowest_after lowest (function_faults target.xlen place f.now)) }
{
    let kinds = RegisterKinds::of(alloc, f)?;
    let in_head = with_head(lowest, first_line(f), place, f);
    Ok(with_blocks(in_head, target, &kinds, f))
}

/// The lowest fault of functions.
fn lowest_fault(
    alloc: Global,
    target: Target,
    functions: &[Function],
) -> Result<Option<Fault>, Memory>
    requires target { (target.xlen ≡ 32) ⊎ (target.xlen ≡ 64) }
    ensures { IfOk result (λ found. found ≡ lowest_after None (functions_faults target.xlen 0 functions.now)) }
{
    let mut lowest = None;
    for (place, f) in functions.iter().enumerate() {
        lowest = with_function(lowest, alloc, target, place, f)?;
    }
    Ok(lowest)
}

/// Nothing where no line of a module passes what is handled, and else the fault of the lowest line that
/// does.
pub fn check_sizes(
    alloc: Global,
    module: &Module,
    target: Target,
) -> Result<Option<SizeError>, Memory>
    requires { (target.xlen ≡ 32) ⊎ (target.xlen ≡ 64) }
    ensures { IfOk result (λ found. size_fault target.xlen «module».now ≡ found) }
{
    let lowest = lowest_fault(alloc, target, module.functions.as_slice())?;
    Ok(lowest.map(|fault| fault.error))
}
