//! Functions of one block that are built from tables of rows, compared with them, and edited under a journal.

use gi_llt::Llt;
use gi_mir::block::{Block, InstrId};
use gi_mir::formed::formed;
use gi_mir::function::Function;
use gi_mir::instr::Instr;
use gi_mir::opcode::Opcode;
use gi_mir::operand::{Flags, Kind, Operand};
use gi_observe::{Change, ChangeKind, Pass};
use smallvec::SmallVec;
use std::alloc::Global;
use std::test::Fail;

/// An opcode and its operands.
pub type Row<'r> = (Opcode, &'r [Operand]);

pub fn needs<T: Send + Sync>() {}

pub const S8: Kind = Kind::Generic(Llt::Scalar(8));

pub const S32: Kind = Kind::Generic(Llt::Scalar(32));

/// An instruction that may stand in a function.
pub fn instruction(alloc: Global, op: Opcode, operands: &[Operand]) -> Result<Instr, Fail> {
    Ok(Instr {
        op,
        flags: Flags::default(),
        operands: SmallVec::from_slice(alloc, operands)?,
        mem: None,
        line: 1,
    })
}

/// A function of one block without instructions.
pub fn empty(alloc: Global) -> Result<Function, Fail> {
    let mut function = Function::new(alloc, 5);
    let block = Block {
        successors: Vec::new(alloc),
        liveins: Vec::new(alloc),
    };
    match function.add_block(block) {
        Ok(_) => Ok(function),
        Err(_) => Err(Fail::from("memory")),
    }
}

/// Appends an instruction to the first block.
fn append(alloc: Global, function: &mut Function, row: &Row<'_>) -> Result<(), Fail> {
    let instr = instruction(alloc, row.0, row.1)?;
    if function.block_count() == 0 || !formed(&instr) {
        return Err(Fail::from("not formed"));
    }
    match function.insert_before(0, None, instr) {
        Ok(_) => Ok(()),
        Err(_) => Err(Fail::from("memory")),
    }
}

/// A function of one block with these instructions, which are numbered from 0.
pub fn built(alloc: Global, rows: &[Row<'_>]) -> Result<Function, Fail> {
    let mut function = empty(alloc)?;
    for row in rows {
        append(alloc, &mut function, row)?;
    }
    Ok(function)
}

/// Whether the first block has exactly these opcodes with these operands.
pub fn has_rows(function: &Function, rows: &[Row<'_>]) -> bool {
    if function.block_count() == 0 {
        return false;
    }
    let instrs = function.instrs(0);
    instrs.len() == rows.len()
        && instrs.zip(rows).all(|(n, (op, operands))| n.instr.op == *op
            && n.instr.operands.as_slice() == *operands)
}

/// What is told of an edit: to which instruction it was done, and its operands before or after, or both.
pub enum Told<'t> {
    Created(usize, &'t [Operand]),
    Erased(usize, &'t [Operand]),
    Changed(usize, &'t [Operand], &'t [Operand]),
}

/// Whether a change is what was to be told.
fn is_told(kind: &ChangeKind, told: &Told<'_>) -> bool {
    match (kind, told) {
        (ChangeKind::Created { id, instr, .. }, Told::Created(number, after)) => {
            id.0 == *number && instr.operands.as_slice() == *after
        }
        (ChangeKind::Erased { id, instr }, Told::Erased(number, before)) => {
            id.0 == *number && instr.operands.as_slice() == *before
        }
        (ChangeKind::Changed { id, old, new }, Told::Changed(number, before, after)) => {
            id.0 == *number
                && old.operands.as_slice() == *before
                && new.operands.as_slice() == *after
        }
        _ => false,
    }
}

/// Whether exactly this was told, in this order, of the function with the number 5 in this pass.
pub fn tells(changes: &[Change], pass: Pass, rows: &[Told<'_>]) -> bool {
    changes.len() == rows.len()
        && changes.iter().zip(rows).all(|(change, told)| change.function == 5
            && change.pass == pass
            && is_told(&change.kind, told))
}
