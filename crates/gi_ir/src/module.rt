//! Modules.

use crate::function::IrFunction;
use crate::types::{IrType, Layout};
use gi_mir::names::Names;
use gi_text::Token;
use std::marker::Model;

/// A module: the lines of its text, the names of its globals and functions, the line of its `target triple` with the
/// quoted token there, its types, of each type the layouts for registers of 32 and of 64 bits, and its functions.
#[derive(Drop)]
pub struct IrModule {
    pub lines: Vec<String>,
    pub names: Names,
    pub triple: Option<(u32, Token)>,
    pub types: Vec<IrType>,
    pub layouts: Vec<[Layout; 2]>,
    pub functions: Vec<IrFunction>,
}

impl Model for IrModule {
    ghost use Rattle.std.specs.Prelude.{map, string_bytes};
    ghost use Rattle.gi_ir.specs.Data.{IrModuleData};

    ghost Value = { IrModuleData };

    ghost view = { λ a. record { lines = map string_bytes a.lines.items; names = a.names; triple = a.triple; types = a.types.items; layouts = a.layouts.items; functions = a.functions.items } };
}
