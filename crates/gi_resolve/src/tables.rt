//! What a line of a function rests on.

ghost use Rattle.std.specs.Prelude.{◌≡◌};
ghost use Rattle.gi_spelling.specs.Resolved.{bare_by, block_place, resolved_definition, typed_by};

use crate::numbering::{Classes, Numbering};
use gi_llt::Llt;
use gi_mir::operand::{Kind, Operand, Reg};
use gi_spelling::token::RegisterClass;
use gi_spelling::written::{Definition, FIRST_OF_NO_BLOCK};
use std::marker::Model;

/// The classes that `registers` gives, the numbers of the blocks in layout, and how many stack objects there are.
#[derive(Drop)]
pub struct Tables {
    pub classes: Classes,
    pub blocks: Numbering,
    pub objects: u32,
}

impl Model for Tables {
    ghost use Rattle.gi_spelling.specs.Resolved.{Tables};

    ghost Value = { Tables };

    ghost view = { λ a. record { classes = a.classes; blocks = a.blocks; objects = a.objects } };
}

/// A definition without a type, of this class.
fn bare(reg: Reg, class: Option<RegisterClass>) -> Option<Operand>
    ensures { result ≡ bare_by reg class }
{
    match class {
        Some(RegisterClass::General) => Some(Operand::Def(reg, Kind::Class)),
        _ => None,
    }
}

/// A definition with a type, of this class.
fn typed(reg: Reg, ty: Llt, class: Option<RegisterClass>) -> Option<Operand>
    ensures { result ≡ typed_by reg ty class }
{
    match class {
        Some(RegisterClass::Generic) => Some(Operand::Def(reg, Kind::Generic(ty))),
        Some(RegisterClass::Banked) => Some(Operand::Def(reg, Kind::Banked(ty))),
        _ => None,
    }
}

impl Tables {
    /// The place of a block. A number of no block is kept behind all places.
    pub fn place(&self, number: u32) -> u32
        ensures { result ≡ block_place self.now.blocks number }
    {
        match self.blocks.place(number) {
            Some(place) => place,
            None => number.saturating_add(FIRST_OF_NO_BLOCK),
        }
    }

    /// What a definition means. Without a class it is of the class that `registers` gives.
    pub fn definition(&self, written: Definition) -> Option<Operand>
        ensures { result ≡ resolved_definition self.now.classes written }
    {
        match written {
            Definition::Bare(reg) => bare(reg, self.classes.class(reg.0)),
            Definition::Typed(reg, ty) => typed(reg, ty, self.classes.class(reg.0)),
            Definition::Full(reg, kind) => Some(Operand::Def(reg, kind)),
            Definition::Physical(number) => Some(Operand::PhysDef(number)),
        }
    }
}
