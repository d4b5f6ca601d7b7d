//! Edits of one long block, to be timed: a row that is applied at each instruction, and a register that is replaced.

ghost use Rattle.std.specs.Prelude.{◌≡◌, true, IfOk};
ghost use Rattle.gi_mir.specs.Formed.{is_formed};

use gi_llt::Llt;
use gi_mir::block::{Block, InstrId};
use gi_mir::formed::formed;
use gi_mir::function::Function;
use gi_mir::instr::Instr;
use gi_mir::opcode::Opcode;
use gi_mir::operand::{Flags, Kind, Operand, Reg};
use gi_observe::{Editor, Pass, Silent};
use gi_replace::replace_root;
use smallvec::SmallVec;
use std::alloc::{AllocError, Global};
use std::collections::VecDeque;

const S32: Kind = Kind::Generic(Llt::Scalar(32));

/// An instruction that may stand in a function.
fn instruction(alloc: Global, op: Opcode, operands: &[Operand]) -> Result<Instr, AllocError>
    ensures { IfOk result (λ instr. is_formed instr ≡ true) }
{
    let instr = Instr {
        op,
        flags: Flags::default(),
        operands: SmallVec::from_slice(alloc, operands).map_err(|_| AllocError)?,
        mem: None,
        line: 1,
    };
    if !formed(&instr) {
        return Err(AllocError);
    }
    Ok(instr)
}

/// Puts an instruction at the end of the first block.
fn append(
    alloc: Global,
    function: &mut Function,
    op: Opcode,
    operands: &[Operand],
) -> Result<(), AllocError> {
    let instr = instruction(alloc, op, operands)?;
    if function.block_count() == 0 {
        return Err(AllocError);
    }
    match function.insert_before(0, None, instr) {
        Ok(_) => Ok(()),
        Err(_) => Err(AllocError),
    }
}

/// What each of many differences reads: the register of the copy in front of all, or that of the difference before.
#[derive(Clone, Copy)]
pub enum Sources {
    First,
    Before,
}

/// A function of one block: a copy of `$x10`, and so many differences of a register and itself.
fn differences(alloc: Global, count: u32, sources: Sources) -> Result<Function, AllocError> {
    let mut function = Function::new(alloc, 0);
    let block = Block {
        successors: Vec::new(alloc),
        liveins: Vec::new(alloc),
    };
    if function.add_block(block).is_err() {
        return Err(AllocError);
    }
    let copy = [Operand::Def(Reg(0), S32), Operand::Phys(10)];
    append(alloc, &mut function, Opcode::Copy, &copy)?;
    for last in 0..count {
        let number = last.saturating_add(1);
        let source = match sources {
            Sources::First => Reg(0),
            Sources::Before => Reg(last),
        };
        let operands = [
            Operand::Def(Reg(number), S32),
            Operand::Use(source),
            Operand::Use(source),
        ];
        append(alloc, &mut function, Opcode::GenericSubtract, &operands)?;
    }
    Ok(function)
}

/// The register of a difference of a register and itself.
fn zero_register(instr: &Instr) -> Option<Reg> {
    if instr.op != Opcode::GenericSubtract {
        return None;
    }
    match instr.operands.as_slice() {
        [
            Operand::Def(reg, _),
            Operand::Use(first),
            Operand::Use(second),
        ] if first.0 == second.0 => Some(*reg),
        _ => None,
    }
}

/// Puts 0 in the place of an instruction, where that is a difference of a register and itself, and tells whether it is.
fn rewrite(alloc: Global, function: &mut Function, root: InstrId) -> Result<bool, AllocError> {
    if !function.is_live(root) {
        return Ok(false);
    }
    let Some(reg) = zero_register(function.instr(root)) else {
        return Ok(false);
    };
    let operands = [Operand::Def(reg, S32), Operand::Constant(32, 0)];
    let zero = instruction(alloc, Opcode::GenericConstant, &operands)?;
    let mut made = VecDeque::new(alloc);
    made.push_back(zero).map_err(|_| AllocError)?;
    let mut silent = Silent;
    let mut edit = Editor::new(function, Pass::PreCombiner, &mut silent);
    match replace_root(&mut edit, root, &mut made) {
        Ok(()) => Ok(true),
        Err(_) => Err(AllocError),
    }
}

/// Rewrites at each of so many instructions of one block, and tells at how many the row fits.
pub fn rewritten(alloc: Global, count: u32, sources: Sources) -> Result<String, AllocError> {
    let mut function = differences(alloc, count, sources)?;
    let mut done = 0u64;
    for last in 0..count {
        if rewrite(alloc, &mut function, InstrId(last as usize + 1))? {
            done = done.saturating_add(1);
        }
    }
    format!(in alloc; "{done} of {count} rewritten")
}

/// How many instructions use a register.
fn user_count(function: &Function, reg: Reg) -> u64 {
    let mut count: u64 = 0;
    for _ in function.uses_of(reg) {
        count = count.saturating_add(1);
    }
    count
}

/// Replaces a register that so many instructions use, and tells how many use the other one then.
pub fn replaced(alloc: Global, count: u32) -> Result<String, AllocError> {
    let mut function = differences(alloc, count, Sources::First)?;
    let other = Reg(count.saturating_add(1));
    if function.replace_reg(Reg(0), other).is_err() {
        return Err(AllocError);
    }
    let users = user_count(&function, other);
    format!(in alloc; "{users} of {count} replaced")
}
