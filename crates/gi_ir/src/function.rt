//! Functions.

use crate::instr::IrInstr;
use gi_llt::{Arg, Ext};
use std::marker::Model;

/// A block: its instructions.
#[derive(Drop)]
pub struct IrBlock {
    pub instrs: Vec<IrInstr>,
}

impl Model for IrBlock {
    ghost use Rattle.std.specs.Prelude.{List};
    ghost use Rattle.gi_ir.specs.Data.{IrInstrData};

    ghost Value = { List IrInstrData };

    ghost view = { λ a. a.instrs.items };
}

/// A function: the number of its name, its arguments, the place of its result's type, how its result is extended, its
/// blocks, and the line of its `define`.
#[derive(Drop)]
pub struct IrFunction {
    pub name: u32,
    pub args: Vec<Arg>,
    pub result: u32,
    pub result_ext: Ext,
    pub blocks: Vec<IrBlock>,
    pub line: u32,
}

impl Model for IrFunction {
    ghost use Rattle.gi_ir.specs.Data.{IrFunctionData};

    ghost Value = { IrFunctionData };

    ghost view = { λ a. record { name = a.name; args = a.args.items; result = a.result; result_ext = a.result_ext; blocks = a.blocks.items; line = a.line } };
}
