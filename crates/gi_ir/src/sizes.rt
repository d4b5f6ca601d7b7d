//! What passes the limits of what is handled.

ghost use Rattle.std.specs.Prelude.{◌≡◌, ◌⊎◌, None, Some, MatchResult};
ghost use Rattle.gi_ir.specs.Sizes.{fault_of_type, first_of, first_among, layout_at, wide, wide_type, large_type, in_value, in_operand, is_cast, in_types, over_aligned, is_alloca, in_numbers, in_instr, in_argument, in_count, in_signature, in_block, in_function, in_functions, ir_size_fault};

use crate::function::{IrBlock, IrFunction};
use crate::instr::{IrInstr, IrOp};
use crate::module::IrModule;
use crate::types::Layout;
use crate::value::{IrOperand, IrValue};
use gi_llt::{Arg, Target};
use gi_mir::opcode::Opcode;
use gi_text::SizeError;

/// The greatest size of a type in bytes.
const GREATEST_SIZE: u32 = 1_048_576;

/// The greatest alignment of an access or a stack object.
const GREATEST_ALIGNMENT: u64 = 4096;

/// How many functions a module has at most.
const MOST_FUNCTIONS: usize = 65_535;

const NO_LAYOUT: Layout = Layout {
    size: 0,
    align: 1,
    widest: 0,
};

/// What is looked at in a type: the bits of its integers, or its bytes.
#[derive(Clone, Copy)]
pub(crate) enum Look {
    Bits,
    Bytes,
}

/// Where types are looked at: their layouts, the machine, and the line.
#[derive(Clone, Copy)]
struct At<'a> {
    layouts: &'a [[Layout; 2]],
    target: Target,
    line: u32,
}

/// The layout of the type at a place.
fn layout_at(layouts: &[[Layout; 2]], place: u32, target: Target) -> Layout
    ensures { result ≡ layout_at target.xlen layouts.now place }
{
    match layouts.get(place as usize) {
        Some([narrow, broad]) => if target.xlen == 32 { *narrow } else { *broad },
        None => NO_LAYOUT,
    }
}

/// So many bits, if they are too many.
fn wide(line: u32, bits: u16, target: Target) -> Option<SizeError>
    requires { (target.xlen ≡ 32) ⊎ (target.xlen ≡ 64) }
    ensures { result ≡ wide target.xlen line bits }
{
    if bits <= 2 * target.xlen {
        None
    } else {
        Some(SizeError::Width { line, bits })
    }
}

/// What is wrong with the type at a place.
fn fault_of_type(look: Look, at: At, place: u32) -> Option<SizeError>
    requires { (at.target.xlen ≡ 32) ⊎ (at.target.xlen ≡ 64) }
    ensures { result ≡ fault_of_type look at.entry.target.xlen at.entry.layouts.now at.entry.line place }
{
    let layout = layout_at(at.layouts, place, at.target);
    match look {
        Look::Bits => wide(at.line, layout.widest, at.target),
        Look::Bytes => {
            if layout.size <= GREATEST_SIZE {
                None
            } else {
                Some(SizeError::Limit {
                    line: at.line,
                    number: u64::from(GREATEST_SIZE),
                })
            }
        }
    }
}

/// What is wrong with the types that an operand names.
fn in_operand(look: Look, at: At, operand: &IrOperand) -> Option<SizeError>
    requires { (at.target.xlen ≡ 32) ⊎ (at.target.xlen ≡ 64) }
    ensures { result ≡ in_operand (fault_of_type look at.entry.target.xlen at.entry.layouts.now at.entry.line) operand.now }
{
    let own = fault_of_type(look, at, operand.ty);
    if own.is_some() {
        return own;
    }
    match &operand.value {
        IrValue::Address(_, place, _) => fault_of_type(look, at, *place),
        _ => None,
    }
}

/// What is wrong with the types that operands name.
fn in_operands(look: Look, at: At, operands: &[IrOperand]) -> Option<SizeError>
    requires { (at.target.xlen ≡ 32) ⊎ (at.target.xlen ≡ 64) }
    ensures { result ≡ first_among (in_operand (fault_of_type look at.entry.target.xlen at.entry.layouts.now at.entry.line)) operands.now }
{
    for operand in operands {
        let fault = in_operand(look, at, operand);
        if fault.is_some() {
            return fault;
        }
    }
    None
}

/// Whether an instruction names its result's type behind its operands.
fn is_cast(op: IrOp) -> bool
    ensures { result ≡ is_cast op }
{
    matches!(
        op,
        IrOp::Generic(
            Opcode::GenericTruncate
                | Opcode::GenericZeroExtend
                | Opcode::GenericSignExtend
                | Opcode::GenericPointerToInteger
                | Opcode::GenericIntegerToPointer
        )
    )
}

/// What is wrong with the types that an instruction names.
fn in_types(look: Look, at: At, instr: &IrInstr) -> Option<SizeError>
    requires { (at.target.xlen ≡ 32) ⊎ (at.target.xlen ≡ 64) }
    ensures { result ≡ in_types (fault_of_type look at.entry.target.xlen at.entry.layouts.now at.entry.line) instr.now }
{
    let own = fault_of_type(look, at, instr.ty);
    let others = in_operands(look, at, instr.operands.as_slice());
    if is_cast(instr.op) {
        first_of(others, own)
    } else {
        first_of(own, others)
    }
}

/// The first of two faults.
fn first_of(first: Option<SizeError>, later: Option<SizeError>) -> Option<SizeError>
    ensures { result ≡ first_of first later }
{
    match first {
        Some(fault) => Some(fault),
        None => later,
    }
}

/// An alignment, if it is too great.
fn over_aligned(line: u32, align: Option<u64>) -> Option<SizeError>
    ensures { result ≡ over_aligned line align }
{
    if align? <= GREATEST_ALIGNMENT {
        None
    } else {
        Some(SizeError::Limit {
            line,
            number: GREATEST_ALIGNMENT,
        })
    }
}

/// Which number of an instruction is too great.
fn in_numbers(at: At, instr: &IrInstr) -> Option<SizeError>
    requires machine { (at.target.xlen ≡ 32) ⊎ (at.target.xlen ≡ 64) }
    requires line { at.line ≡ instr.now.line }
    ensures { result ≡ in_numbers at.entry.target.xlen at.entry.layouts.now instr.now }
{
    let size = in_types(Look::Bytes, at, instr);
    let alignment = over_aligned(instr.line, instr.align);
    match instr.op {
        IrOp::Alloca => first_of(size, alignment),
        _ => first_of(alignment, size),
    }
}

/// What is wrong with an instruction.
fn in_instr(layouts: &[[Layout; 2]], target: Target, instr: &IrInstr) -> Option<SizeError>
    requires { (target.xlen ≡ 32) ⊎ (target.xlen ≡ 64) }
    ensures { result ≡ in_instr target.xlen layouts.now instr.now }
{
    let at = At {
        layouts,
        target,
        line: instr.line,
    };
    let width = in_types(Look::Bits, at, instr);
    first_of(width, in_numbers(at, instr))
}

/// What is wrong with a block.
fn in_block(layouts: &[[Layout; 2]], target: Target, block: &IrBlock) -> Option<SizeError>
    requires { (target.xlen ≡ 32) ⊎ (target.xlen ≡ 64) }
    ensures { result ≡ in_block target.xlen layouts.now block.now }
{
    for instr in block.instrs.as_slice() {
        let fault = in_instr(layouts, target, instr);
        if fault.is_some() {
            return fault;
        }
    }
    None
}

/// What is wrong with blocks.
fn in_blocks(layouts: &[[Layout; 2]], target: Target, blocks: &[IrBlock]) -> Option<SizeError>
    requires { (target.xlen ≡ 32) ⊎ (target.xlen ≡ 64) }
    ensures { result ≡ first_among (in_block target.xlen layouts.now) blocks.now }
{
    for block in blocks {
        let fault = in_block(layouts, target, block);
        if fault.is_some() {
            return fault;
        }
    }
    None
}

/// What is wrong with an argument.
fn in_argument(target: Target, line: u32, arg: Arg) -> Option<SizeError>
    requires { (target.xlen ≡ 32) ⊎ (target.xlen ≡ 64) }
    ensures { result ≡ in_argument target.xlen line arg }
{
    if arg.pointer {
        None
    } else {
        wide(line, arg.bits, target)
    }
}

/// What is wrong with arguments.
fn in_arguments(target: Target, line: u32, args: &[Arg]) -> Option<SizeError>
    requires { (target.xlen ≡ 32) ⊎ (target.xlen ≡ 64) }
    ensures { result ≡ first_among (in_argument target.xlen line) args.now }
{
    for arg in args {
        let fault = in_argument(target, line, *arg);
        if fault.is_some() {
            return fault;
        }
    }
    None
}

/// Whether a function is one too many.
fn in_count(line: u32, number: usize) -> Option<SizeError>
    ensures { result ≡ in_count line number }
{
    if number >= MOST_FUNCTIONS {
        Some(SizeError::Limit {
            line,
            number: MOST_FUNCTIONS as u64,
        })
    } else {
        None
    }
}

/// What is wrong with the signature of the function of a number.
fn in_signature(
    layouts: &[[Layout; 2]],
    target: Target,
    number: usize,
    f: &IrFunction,
) -> Option<SizeError>
    requires { (target.xlen ≡ 32) ⊎ (target.xlen ≡ 64) }
    ensures { result ≡ in_signature target.xlen layouts.now number f.now }
{
    let at = At {
        layouts,
        target,
        line: f.line,
    };
    let result = fault_of_type(Look::Bits, at, f.result);
    let width = first_of(result, in_arguments(target, f.line, f.args.as_slice()));
    let size = fault_of_type(Look::Bytes, at, f.result);
    first_of(width, first_of(in_count(f.line, number), size))
}

/// What is wrong with the function of a number.
fn in_function(
    layouts: &[[Layout; 2]],
    target: Target,
    number: usize,
    f: &IrFunction,
) -> Option<SizeError>
    requires { (target.xlen ≡ 32) ⊎ (target.xlen ≡ 64) }
    ensures { result ≡ in_function target.xlen layouts.now number f.now }
{
    let signature = in_signature(layouts, target, number, f);
    first_of(signature, in_blocks(layouts, target, f.blocks.as_slice()))
}

/// What is wrong with functions.
fn in_functions(
    layouts: &[[Layout; 2]],
    target: Target,
    functions: &[IrFunction],
) -> Option<SizeError>
    requires { (target.xlen ≡ 32) ⊎ (target.xlen ≡ 64) }
    ensures { result ≡ in_functions target.xlen layouts.now 0 functions.now }
{
    for (number, f) in functions.iter().enumerate() {
        let fault = in_function(layouts, target, number, f);
        if fault.is_some() {
            return fault;
        }
    }
    None
}

/// The first fault of a module, in the order of its text. It takes no memory.
pub fn check_ir_sizes(module: &IrModule, target: Target) -> Result<(), SizeError>
    requires { (target.xlen ≡ 32) ⊎ (target.xlen ≡ 64) }
    ensures { MatchResult result (λ _. ir_size_fault target.xlen «module».now ≡ None) (λ error. ir_size_fault target.xlen «module».now ≡ Some error) }
{
    match in_functions(
        module.layouts.as_slice(),
        target,
        module.functions.as_slice(),
    ) {
        None => Ok(()),
        Some(error) => Err(error),
    }
}
