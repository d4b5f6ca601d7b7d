//! Values as operands.

use std::marker::Model;

/// The indices of a constant getelementptr.
#[derive(Drop)]
pub struct Indices {
    pub list: Vec<i128>,
}

impl Model for Indices {
    ghost use Rattle.std.specs.Prelude.{ℤ, List};

    ghost Value = { List ℤ };

    ghost view = { λ a. a.list.items };
}

/// A value.
#[derive(Drop)]
pub enum IrValue {
    /// An argument or the result of an instruction, by its number in the function.
    Local(u32),
    /// A number, modulo 2 to its width.
    Number(u128),
    Null,
    Undef,
    Poison,
    /// The address of a global, by the number of its name.
    Global(u32),
    /// An address in a global: the getelementptr of the global by the type at a place.
    Address(u32, u32, Indices),
}

/// An operand: the place of its type, and its value.
#[derive(Drop)]
pub struct IrOperand {
    pub ty: u32,
    pub value: IrValue,
}
