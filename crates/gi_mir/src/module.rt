//! Modules.

use crate::function::Function;
use crate::names::Names;
use std::marker::Model;

/// A module: the lines of its IR block if it has one, its names, and its functions.
#[derive(Drop)]
pub struct Module {
    pub ir: Option<Vec<String>>,
    pub names: Names,
    pub functions: Vec<Function>,
}

impl Model for Module {
    ghost use Rattle.std.specs.Prelude.{map, option_map, string_bytes};
    ghost use Rattle.gi_mir.specs.Data.{ModuleData};

    ghost Value = { ModuleData };

    ghost view = { λ a. record { ir = option_map (λ lines. map string_bytes lines.items) a.ir; names = a.names; functions = a.functions.items } };
}
