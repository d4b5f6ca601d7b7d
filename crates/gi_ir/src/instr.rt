//! Instructions.

use crate::value::IrOperand;
use gi_llt::Ext;
use gi_mir::opcode::Opcode;
use gi_mir::operand::{Flags, Pred};
use std::marker::Model;

/// What an instruction does.
#[derive(Clone, Copy, Debug, PartialEq, Eq)]
pub enum IrOp {
    /// What a generic opcode does: arithmetic, casts, `select`, `freeze`, `phi`, `load`, `store`, and intrinsics that
    /// have an opcode.
    Generic(Opcode),
    /// `icmp`
    Compare(Pred),
    /// `alloca`
    Alloca,
    /// `getelementptr`
    Element,
    /// A call of a function, by the number of its name.
    Call(u32),
    /// `br`
    Branch,
    /// `switch`
    Switch,
    /// `ret`
    Return,
    /// `unreachable`
    Unreachable,
    /// A call of an intrinsic that does nothing.
    Nothing,
}

/// An instruction, with the line of the text at which it begins. `ty` is the place of its result's type; of `alloca` and
/// `getelementptr` that of the type that they name, of `store` that of the value.
#[derive(Drop)]
pub struct IrInstr {
    pub op: IrOp,
    pub flags: Flags,
    pub ty: u32,
    /// The number of its result in the function.
    pub result: Option<u32>,
    pub operands: Vec<IrOperand>,
    /// How each argument of a call is extended.
    pub exts: Vec<Ext>,
    /// One block for each operand of a `phi`; the targets of a `br`; of a `switch` the default, and then the targets of
    /// its cases.
    pub blocks: Vec<u32>,
    pub align: Option<u64>,
    pub line: u32,
}

impl Model for IrInstr {
    ghost use Rattle.gi_ir.specs.Data.{IrInstrData};

    ghost Value = { IrInstrData };

    ghost view = { λ a. record { op = a.op; flags = a.flags; ty = a.ty; result = a.result; operands = a.operands.items; exts = a.exts.items; blocks = a.blocks.items; align = a.align; line = a.line } };
}
